//! Parameters, modules and tables.

use super::{judge, judge_all};
use std::test::Fail;

/// Parameters with values that they take.
const TAKEN: &str =
    "listen=udp:127.0.0.1:5060 listen=udp:0.0.0.0:65535; alias='a.example' alias='' alias=\"\"; \
    max_while_loops=1 max_while_loops=0100 max_while_loops=1000; \
    max_recursive_level=1 max_recursive_level=256; max_recursive_level=1000 \
    debug=3 debug=9223372036854775807 debug=yes debug='a'; log_stderror=no log_stderror=0 log_stderror='' \
    log_facility=LOG_LOCAL0 log_facility='a' log_facility=1 fork=yes fork=0 fork='yes' \
    children=8 children=many children='' auto_aliases=no; auto_aliases=0 auto_aliases='x' \
    mpath='modules/' mpath=1 mpath=a memdbg=5 memdbg=a memdbg='5' memlog=5 memlog=a memlog='5';";

/// Parameters that aren't there, or with values that they don't take.
const NOT_TAKEN: &str = "listen=5060 listen='udp:127.0.0.1:5060' listen=eth0 alias=5 alias=example \
    max_while_loops=0 max_while_loops=1001 max_while_loops=4294967297 max_while_loops=9223372036854775807 \
    max_while_loops='100' max_while_loops=yes \
    max_recursive_level=0 max_recursive_level=1001; max_recursive_level=4294967552 max_recursive_level='256' \
    max_recursive_level=ten \
    foo=1 Debug=3 debug_=3 debu=3 listen_='a' LISTEN=5060 port=5060 fr_timer=5000 htable='t=>' \
    max_while_loop=5 tcp_children=8; request_route=1 reply_route=yes branch_route='a' onreply_route=1 tm=1";

/// Several, at the top of a script.
const SEVERAL: [&str; 10] = [
    "alias='a' alias='b' alias='a'",
    "debug=1 debug=1 fork=yes fork=yes",
    "max_while_loops=7 listen=udp:1.2.3.4:5 max_recursive_level=7 modparam('tm', 'fr_timer', 1)",
    "listen=udp:127.0.0.1:5060 `listen`=udp:127.0.0.1:5060",
    "listen=udp:127.0.0.1:5060 route[A]{} `listen`=udp:127.0.0.2:5060 listen=1",
    "max_while_loops=5 `max_while_loops`=5",
    "max_recursive_level=5 max_while_loops=5; `max_recursive_level`=6; max_while_loops=6",
    "alias='a'; `alias`=0 alias=b",
    "`listen`=1 listen=udp:127.0.0.1:5060",
    "debug=1; `foo`='a' bar=1",
];

const MODULES: &str = "tm tmx pv htable corex sl textops siputils maxfwd rr xlog";

/// Names of modules that aren't there.
const NO_MODULES: [&str; 24] = [
    "''",
    "'x'",
    "'TM'",
    "'tm '",
    "' tm'",
    "'tm.'",
    "'tm.s'",
    "'tm.SO'",
    "'tm.so.so'",
    "'tm.so/'",
    "'tm/'",
    "'tm/usrloc'",
    "'tm.so/usrloc.so'",
    "'.so'",
    "'/'",
    "'/.so'",
    "'tmtm'",
    "'atm'",
    "'htables'",
    "'usrloc'",
    "'usrloc.so'",
    "'kex.so'",
    "'lib\\\\tm.so'",
    "\"/usr/lib/kamailio/modules/registrar.so\"",
];

#[test]
fn modules_are_known(rt: HostRuntime) -> Result<(), Fail> {
    let alloc = rt.alloc();
    for name in &NO_MODULES {
        let row = format!(in alloc; "loadmodule `{name}`")?;
        judge(
            &rt,
            alloc,
            15,
            "route{} loadmodule 'tm'; ",
            row.as_str(),
            "",
        )?;
        judge(
            &rt,
            alloc,
            15,
            "",
            row.as_str(),
            " ; loadmodule 'y' route{}",
        )?;
    }
    for name in MODULES.split_whitespace() {
        for path in &[
            "",
            "/",
            "./",
            "/usr/lib/kamailio/modules/",
            "usrloc/",
            "tm.so/",
        ] {
            let row = format!(in alloc;
                "loadmodule '{path}{name}' loadmodule \"{path}{name}.so\";"
            )?;
            judge(&rt, alloc, 15, "", row.as_str(), "route{}")?;
        }
    }
    Ok(())
}

/// Parameters of modules.
const OF_MODULES: [&str; 42] = [
    "modparam('tm', 'fr_timer', 1)",
    "modparam('tm', 'fr_timer', 3600000);",
    "modparam(\"tm\", \"fr_timer\", 0030000)",
    "modparam('tm', 'fr_inv_timer', 1)",
    "modparam('tm', 'fr_inv_timer', 3600000)",
    "modparam('tm', 'fr_timer', 1) modparam('tm', 'fr_inv_timer', 1)",
    "modparam('tm', `'fr_timer'`, 0)",
    "modparam('tm', `'fr_timer'`, 3600001)",
    "modparam('tm', `'fr_timer'`, 4294967297)",
    "modparam('tm', `'fr_timer'`, 9223372036854775807)",
    "modparam('tm', `'fr_timer'`, '30000')",
    "modparam('tm', `'fr_timer'`, '')",
    "modparam('tm', `'fr_inv_timer'`, 0)",
    "modparam('tm', `'fr_inv_timer'`, 3600001)",
    "modparam('tm', `\"fr_inv_timer\"`, \"120000\")",
    "modparam('tm', 'fr_timer', 1) modparam('tm', `'fr_timer'`, 1)",
    "modparam('tm', 'fr_inv_timer', 2); modparam('tm', `'fr_inv_timer'`, 1);",
    "modparam('tm', `'fr_timer2'`, 1)",
    "modparam('tm', `'FR_TIMER'`, 1)",
    "modparam('tm', `''`, 1)",
    "modparam('tm', `'wt_timer'`, 5000)",
    "modparam('tm', `'htable'`, 't=>')",
    "modparam('tm', `'max_while_loops'`, 5)",
    "modparam('tm.so', `'fr_timer'`, 1)",
    "modparam('TM', `'fr_timer'`, 1)",
    "modparam('', `'fr_timer'`, 1)",
    "modparam('tmx', `'fr_timer'`, 1)",
    "modparam('sl', `'fr_timer'`, 1)",
    "modparam('x', `'x'`, 'x')",
    "modparam('rr', `'enable_full_lr'`, 1)",
    "modparam('tm|sl', `'fr_timer'`, 1)",
    "modparam('htable', `'fr_timer'`, 1)",
    "modparam('htable', `'htable'`, 8)",
    "modparam('htable', `'htables'`, 't=>')",
    "modparam('htable', `'HTABLE'`, 't=>')",
    "modparam('htable.so', `'htable'`, 't=>')",
    "modparam('pv', `'htable'`, 't=>')",
    "modparam('htable' , /* name */ `'htable'` , 't=>;' )",
    "modparam('htable', 'htable', 't=>') modparam('htable', 'htable', 'T=>size=2')",
    "modparam('htable', 'htable', 't=>') modparam('htable', `'htable'`, 't=>')",
    "modparam('htable', 'htable', 't=>size=2') debug=1 modparam('htable', `'htable'`, 't=>size=3')",
    "modparam('htable', 'htable', 'a=>') modparam('htable', 'htable', 'b=>') \
     modparam('htable', `\"htable\"`, \"a=>\")",
];

/// Tables.
const TABLES: &str = "t=> t=>size=8 t=>size=8; t=>size=2 t=>size=14 t=>size=008 \
    t=>autoexpire=0 t=>autoexpire=-0 t=>autoexpire=10000000 \
    t=>initval=0 t=>initval=-5 t=>initval=9223372036854775807 t=>initval=-9223372036854775808; \
    t=>updateexpire=1 t=>updateexpire=1; \
    t=>size=8;autoexpire=120 t=>updateexpire=1;initval=-1;autoexpire=1;size=3; \
    _=> T9_=>size=8 t9=> size=>size=8";

/// No tables.
const NO_TABLES: &str = "t t= t> t=size => =>size=8 1t=> t-1=> a.b=> $t=> \u{e9}=> \
    t=>; t=>;size=8 t=>size=8;; t=>size=8;;autoexpire=1 t=>size=8,autoexpire=1 \
    t=>size t=>size= t=>size=0 t=>size=1 t=>size=15 t=>size=-8 t=>size=+8 t=>size=8x t=>size=0x8 t=>size=8=8 \
    t=>size=4294967304 t=>size=18446744073709551624 t=>SIZE=8 t=>size=8;size=8 t=>size=8;autoexpire=1;size=9 \
    t=>autoexpire= t=>autoexpire=-1 t=>autoexpire=10000001 t=>autoexpire=18446744073709551616 \
    t=>autoexpire=1;autoexpire=1 t=>initval= t=>initval=- t=>initval=+1 t=>initval=--1 t=>initval=a \
    t=>initval=9223372036854775808 t=>initval=-9223372036854775809 t=>initval=1;initval=1 \
    t=>updateexpire t=>updateexpire= t=>updateexpire=01 t=>updateexpire=+1 t=>updateexpire=1x t=>updateexpire=11 \
    t=>updateexpire=0 t=>updateexpire=2 t=>updateexpire=1;updateexpire=1 \
    t=>dbtable=5 t=>=8 t=>t=> t=size=>8";

/// The empty text, and those with blanks.
const BLANKS: [&str; 11] = [
    "",
    " ",
    " t=>",
    "t =>",
    "t=> size=8",
    "t=>size =8",
    "t=>size= 8",
    "t=>size=8 ",
    "t=>size=8; autoexpire=1",
    "t=>updateexpire= 1",
    "t=>updateexpire=1 ",
];

#[test]
fn parameters_are_known(rt: HostRuntime) -> Result<(), Fail> {
    let alloc = rt.alloc();
    for rows in &[SEVERAL.as_slice(), OF_MODULES.as_slice()] {
        judge_all(&rt, alloc, 11, "", rows, " route{}")?;
        judge_all(&rt, alloc, 11, "route{} # and then:\n", rows, "")?;
    }
    for row in TAKEN.split_whitespace() {
        judge(&rt, alloc, 11, "", row, " route{}")?;
    }
    for row in NOT_TAKEN.split_whitespace() {
        let (name, value) = row.split_once('=').ok_or("no value")?;
        let row = format!(in alloc; "`{name}`={value}")?;
        judge(&rt, alloc, 11, "route{} ", row.as_str(), "")?;
    }
    Ok(())
}

#[test]
fn tables_are_what_their_text_says(rt: HostRuntime) -> Result<(), Fail> {
    let alloc = rt.alloc();
    for text in TABLES.split_whitespace() {
        let row = format!(in alloc; "modparam('htable', 'htable', '{text}')")?;
        judge(&rt, alloc, 11, "route{} ", row.as_str(), "")?;
    }
    for text in NO_TABLES.split_whitespace() {
        let row = format!(in alloc; "modparam('htable', `'htable'`, '{text}')")?;
        judge(&rt, alloc, 11, "", row.as_str(), "; route{}")?;
    }
    for text in &BLANKS {
        let row = format!(in alloc; "modparam('htable', `'htable'`, '{text}')")?;
        judge(&rt, alloc, 11, "route{} ", row.as_str(), "")?;
    }
    Ok(())
}
