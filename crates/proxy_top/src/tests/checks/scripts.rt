//! Whole scripts that are accepted, and what they come to.

use crate::accept::accepted;
use crate::tests::{HOLDING, USUAL};
use cfg_tree::Script;
use std::alloc::{AllocError, Global};
use std::test::Fail;

/// Blocks in another order, with all parameters.
const SETTING: &str = r#"
alias="a.example" max_while_loops=7
max_recursive_level=8; debug=3
alias="b.example"
modparam("tm", "fr_timer", 5000)
modparam("tm", "fr_inv_timer", 60000)
modparam("htable", "htable", "a=>")
route[X] {
  $var(i) = $var(i) + $var(n);
  ; { $sht(b=>$var(k)) = 1; { } { drop; } }
}
onreply_route { if ($rs =~ "^1") drop; if (t_check_status("^1")) { exit; } }
modparam("htable", "htable", "b=>size=3;autoexpire=60;initval=-2;updateexpire=1;")
request_route {
  sht_rm_name_re("b=>^x");
  $var(n) = "$var(z)";
  switch ($(var(m){s.len})) { case 1: exit; case "$var(z)": default: route(X); }
}
"#;

/// A proxy that forks, counts and logs.
const FORKING: &str = r#"
loadmodule "/usr/lib/kamailio/modules/textops.so"
modparam("htable", "htable", "calls=>autoexpire=3600;initval=0")
request_route {
  if (uri == myself && !is_present_hf("Route")) $ru = "sip:" + $rU + "@192.0.2.5";
  if ($shtinc(calls=>$fu) > 5 or $sht(calls=>$fU@$fd) == $null) { sl_send_reply(403, "$fu: $rc of $$5"); exit; }
  $avp(s:from) = $fu; $var(n) = 0;
  while ($var(n) < 3) { append_branch("sip:$tU@192.0.2.$(var(n){s.int})"); $var(n) = $var(n) + 1; }
  t_on_branch("OUT"); t_on_reply("BACK"); t_set_fr($avp(from), 2000);
  remove_hf("Subject"); append_hf("X-Source: $si:$sp\r\n");
  return t_newtran() && t_relay();
}
branch_route[OUT] { $du = $null; $rp = 5080; xlog("L_INFO", "$ru $rd $(ru{uri.host}) $ci $cs $rm $ua"); }
onreply_route[BACK] {
  if ($rs mod 100 == 83 and not t_check_status("^18")) drop;
  xlog("$rs $rr $ft $tt $td $tu $hdr(Contact) $retcode $T(id_index)");
}
event_route[htable:expired] { $shtex(calls=>$var(x)) = -1 * 5; sht_reset("calls"); }
"#;

/// The statements of each block; then the numbers of blocks, and how many variables and patterns there are.
fn blocks(alloc: Global, script: &Script) -> Result<String, AllocError> {
    let mut text = String::new(alloc);
    for block in script.blocks.as_slice() {
        let statements = block.as_slice().len();
        write!(text, "{statements} ")?;
    }
    let patterns = script.patterns.as_slice().len();
    let (request, reply, vars) = (script.request, script.reply, script.vars);
    write!(
        text,
        "request {request} reply {reply:?} vars {vars} patterns {patterns}"
    )?;
    Ok(text)
}

/// The parameters, and the tables.
fn settings(alloc: Global, script: &Script) -> Result<String, AllocError> {
    let mut text = String::new(alloc);
    let given = &script.parameters;
    let (loops, level) = (given.max_while_loops, given.max_recursive_level);
    let (timer, inv_timer) = (given.fr_timer, given.fr_inv_timer);
    write!(text, "{loops} {level} {timer} {inv_timer}")?;
    if let Some(listen) = given.listen {
        let (ip, port) = (listen.ip, listen.port);
        write!(text, " at {ip}:{port}")?;
    }
    for alias in given.aliases.as_slice() {
        let host = std::str::from_utf8(alias.bytes()).unwrap_or("?");
        write!(text, " {host}")?;
    }
    for table in script.tables.as_slice() {
        let (size, life) = (table.size, table.autoexpire);
        let (first, update) = (table.initval, table.update);
        write!(text, " | {size} {life} {first:?} {update}")?;
    }
    Ok(text)
}

/// Each script with what it comes to.
const SCRIPTS: [(&str, &str, &str); 5] = [
    (
        "route{}",
        "0 request 0 reply None vars 0 patterns 0",
        "100 256 30000 120000",
    ),
    (
        HOLDING,
        "4 1 request 0 reply None vars 0 patterns 0",
        "100 256 30000 120000 | 8 120 None true",
    ),
    (
        USUAL,
        "5 2 request 0 reply None vars 0 patterns 1",
        "100 256 30000 120000 at 2130706433:5060",
    ),
    (
        SETTING,
        "3 2 3 request 2 reply Some(1) vars 4 patterns 3",
        "7 8 5000 60000 a.example b.example | 8 0 None true | 3 60 Some(-2) true",
    ),
    (
        FORKING,
        "11 3 2 2 request 0 reply None vars 2 patterns 1",
        "100 256 30000 120000 | 8 3600 Some(0) true",
    ),
];

#[test]
fn whole_scripts_are_accepted(rt: HostRuntime) -> Result<(), Fail> {
    let alloc = rt.alloc();
    for (text, wanted_blocks, wanted_settings) in &SCRIPTS {
        let script = accepted(alloc, text.as_bytes())?.into_script();
        assert_eq!(rt; blocks(alloc, &script)?.as_str(), *wanted_blocks);
        assert_eq!(rt; settings(alloc, &script)?.as_str(), *wanted_settings);
    }
    Ok(())
}
