//! Blocks that are named and not there, that stand twice, and scripts without a `request_route`.

use super::{END, judge_all};
use std::test::Fail;

/// In a `request_route`, beside `route[A]`, `branch_route[B]`, `failure_route[F]`, `onreply_route[O]`,
/// `event_route[E]` and a `reply_route`.
const NAMED: [&str; 42] = [
    "route(A);",
    "route('A');",
    "route( /* the only one */ A );",
    "t_on_branch('B');",
    "t_on_failure('F');",
    "t_on_reply('O');",
    "t_continue(1, 2, 'A');",
    "if(route(A)) return route(A) + 1;",
    "route(`X`);",
    "route(`a`);",
    "route(`AA`);",
    "route(`if`);",
    "route(`'X'`);",
    "route(`\"X\"`);",
    "route(`''`);",
    "route(`' A'`);",
    "route( `X` );",
    "route(`B`);",
    "route(`F`);",
    "route('A'); route(`'O'`);",
    "route(`E`);",
    "route(`request_route`);",
    "route(`reply_route`);",
    "if(route(`X`)) exit;",
    "return 1 + route(`X`);",
    "$var(a) = !route(`'X'`);",
    "while(1) { if(1); else route(`X`); }",
    "switch(1) { case 1: route(`X`); default: }",
    "t_on_branch(`'X'`);",
    "t_on_branch(`'A'`);",
    "t_on_branch(`'F'`);",
    "t_on_branch(`''`);",
    "t_on_failure(`'X'`);",
    "t_on_failure(`'B'`);",
    "t_on_failure(`'f'`);",
    "t_on_reply(`'X'`);",
    "t_on_reply(`'A'`);",
    "t_on_reply(`''`);",
    "t_on_reply(`'E'`);",
    "t_continue(1, 2, `'X'`);",
    "t_continue('$ru', $du, `'O'`);",
    "if(t_continue(1, 2, `\"a\"`)) exit;",
];

#[test]
fn a_block_that_a_call_names_is_there(rt: HostRuntime) -> Result<(), Fail> {
    let alloc = rt.alloc();
    judge_all(&rt, alloc, 4, "reply_route{} route{", &NAMED, END)
}

/// Whole texts.
const TWICE: [&str; 23] = [
    "route{} route[A]{} branch_route[A]{} failure_route[A]{} onreply_route[A]{} event_route[A]{}",
    "route{} reply_route{} onreply_route[A]{} onreply_route[B]{}",
    "route{} route[A]{} route[a]{} route[AA]{} route[A.]{}",
    "route[request_route]{} request_route{}",
    "route{} route[A]{} route[`A`]{}",
    "route[A]{} route[`A`]{} route{}",
    "route{} branch_route[A]{} branch_route[`A`]{}",
    "failure_route[A]{} route{} failure_route[`A`]{}",
    "onreply_route[A]{} onreply_route[`A`]{} route{}",
    "event_route[tm:local]{} event_route[`tm:local`]{} route{}",
    "route{} route[A]{} route[B]{} branch_route[B]{} route[`A`]{}",
    "route{} route[A]{} route[`A`]{} route[A]{}",
    "route{} route[A]{} route[ /* again */ `A` ]{ exit; }",
    "request_route{} `request_route`{}",
    "request_route{} `route`{}",
    "route{} `request_route` { exit; }",
    "route{}\n`route`\n{}",
    "route{} route[A]{} `route`{} route{}",
    "route{} reply_route{} `reply_route`{}",
    "route{} reply_route{} `onreply_route`{}",
    "route{} onreply_route{} `reply_route`{}",
    "route{} onreply_route{} `onreply_route`{}",
    "reply_route{} `onreply_route`{} onreply_route[A]{}",
];

/// Whole texts.
const WITHOUT_REQUEST_ROUTE: [&str; 14] = [
    "route{}",
    "request_route{}",
    "debug=3 route[A]{} reply_route{} route{} # the last one",
    "``",
    " \r\n\t``",
    "# nothing``",
    "/* nothing */\n``",
    "route[A]{}``",
    "route[request_route]{}\n``",
    "reply_route{} onreply_route[A]{}``",
    "branch_route[A]{} failure_route[A]{} event_route[A]{} ``",
    "debug=3``",
    "loadmodule 'tm';``",
    "modparam('tm', 'fr_timer', 1) // route{}\n``",
];

#[test]
fn a_block_stands_once_and_one_begins_with_a_request(rt: HostRuntime) -> Result<(), Fail> {
    let alloc = rt.alloc();
    judge_all(&rt, alloc, 5, "", &TWICE, "")?;
    judge_all(&rt, alloc, 14, "", &WITHOUT_REQUEST_ROUTE, "")
}
