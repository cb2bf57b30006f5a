//! Loose routing: its rules, and where its edits find no room.

use super::{edited, facts, facts_with_edits, message, parameters, request, settings};
use crate::loose_route;
use pv_table::{BlockKind, Facts};
use std::alloc::{AllocError, Global};
use std::process::Abort;
use std::test::Fail;

/// Loose routing of a request to a target.
struct Routing {
    uri: &'static str,
    routes: &'static str,
    code: i64,
    /// The target then.
    to: &'static str,
    /// The destination then; empty where there is none.
    by: &'static str,
    /// The Route fields that are left.
    left: &'static str,
}

const ROUTINGS: [Routing; 13] = [
    // without a Route field
    Routing {
        uri: "sip:127.0.0.1;lr",
        routes: "",
        code: -1,
        to: "sip:127.0.0.1;lr",
        by: "",
        left: "",
    },
    // the top value is ours, and nothing is left
    Routing {
        uri: "sip:b@192.0.2.9",
        routes: "Route: <sip:127.0.0.1:5060;lr>\r\n",
        code: 1,
        to: "sip:b@192.0.2.9",
        by: "",
        left: "",
    },
    // two values in one field
    Routing {
        uri: "sip:b@192.0.2.9",
        routes: "Route: <sip:127.0.0.1:5060;lr>, <sip:192.0.2.50;lr>;x=y\r\n",
        code: 1,
        to: "sip:b@192.0.2.9",
        by: "sip:192.0.2.50;lr",
        left: "Route: <sip:192.0.2.50;lr>;x=y\r\n",
    },
    // an alias on any port, without regard to case, and a field that is cut whole
    Routing {
        uri: "sip:b@192.0.2.9",
        routes: "Route: <sips:Proxy.Example:5090;lr>\r\nRoute: <sip:192.0.2.50;lr>\r\n",
        code: 1,
        to: "sip:b@192.0.2.9",
        by: "sip:192.0.2.50;lr",
        left: "Route: <sip:192.0.2.50;lr>\r\n",
    },
    // the top value isn't ours
    Routing {
        uri: "sip:b@192.0.2.9",
        routes: "Route: <sip:127.0.0.1:5061;lr>\r\n",
        code: 1,
        to: "sip:b@192.0.2.9",
        by: "sip:127.0.0.1:5061;lr",
        left: "Route: <sip:127.0.0.1:5061;lr>\r\n",
    },
    // a strict router after us
    Routing {
        uri: "sip:b@192.0.2.9",
        routes: "Route: <sip:127.0.0.1;lr>, <sip:192.0.2.50>\r\n",
        code: 1,
        to: "sip:192.0.2.50",
        by: "",
        left: "Route: <sip:b@192.0.2.9>\r\n",
    },
    Routing {
        uri: "sip:b@192.0.2.9",
        routes: "Route: <sip:127.0.0.1;lr> , <sip:192.0.2.50>\r\n , <sip:192.0.2.51;lr>\r\n",
        code: 1,
        to: "sip:192.0.2.50",
        by: "",
        left: "Route: <sip:192.0.2.51;lr>\r\nRoute: <sip:b@192.0.2.9>\r\n",
    },
    // a strict router before us
    Routing {
        uri: "sip:127.0.0.1;lr",
        routes: "Route: <sip:b@192.0.2.9>\r\n",
        code: 1,
        to: "sip:b@192.0.2.9",
        by: "",
        left: "",
    },
    Routing {
        uri: "sip:127.0.0.1;lr",
        routes: "Route: <sip:192.0.2.50;lr>, <sip:b@192.0.2.9>\r\n",
        code: 1,
        to: "sip:b@192.0.2.9",
        by: "sip:192.0.2.50;lr",
        left: "Route: <sip:192.0.2.50;lr>\r\n",
    },
    // strict routers before and after us
    Routing {
        uri: "sip:127.0.0.1;lr",
        routes: "Route: <sip:192.0.2.50>, <sip:192.0.2.51;lr>\r\nRoute: <sip:b@192.0.2.9>\r\n",
        code: 1,
        to: "sip:192.0.2.50",
        by: "",
        left: "Route: <sip:192.0.2.51;lr>\r\nRoute: <sip:b@192.0.2.9>\r\n",
    },
    // a strict router before us, and the top value is ours as well
    Routing {
        uri: "sip:proxy.example;lr",
        routes: "Route: <sip:127.0.0.1;lr>\r\nRoute: <sip:192.0.2.50;lr>, <sip:b@192.0.2.9>\r\n",
        code: 1,
        to: "sip:b@192.0.2.9",
        by: "sip:192.0.2.50;lr",
        left: "Route: <sip:192.0.2.50;lr>\r\n",
    },
    Routing {
        uri: "sip:proxy.example;lr",
        routes: "Route: <sip:127.0.0.1;lr>, <sip:b@192.0.2.9>\r\n",
        code: 1,
        to: "sip:b@192.0.2.9",
        by: "",
        left: "",
    },
    // the target is ours without `lr`
    Routing {
        uri: "sip:127.0.0.1",
        routes: "Route: <sip:192.0.2.50;lr>\r\n",
        code: 1,
        to: "sip:127.0.0.1",
        by: "sip:192.0.2.50;lr",
        left: "Route: <sip:192.0.2.50;lr>\r\n",
    },
];

/// The target and the destination of the facts, and the text after their edits, are these.
fn goes(
    rt: &impl Abort,
    alloc: Global,
    b: &[u8],
    facts: &Facts,
    wanted: (&str, &str, &str),
) -> Result<(), AllocError> {
    let (to, by, left) = wanted;
    assert_eq!(rt; facts.uri.bytes(), to.as_bytes());
    let destination = match &facts.destination {
        Some(text) => text.bytes(),
        None => b"",
    };
    assert_eq!(rt; destination, by.as_bytes());
    let text = edited(rt, alloc, b, facts)?;
    assert_eq!(rt; text.as_slice(), request(alloc, left)?.as_slice());
    Ok(())
}

/// A first call does what is wanted, and a second one answers the same and changes nothing.
fn routes_so(rt: &impl Abort, alloc: Global, routing: &Routing) -> Result<(), AllocError> {
    let text = request(alloc, routing.routes)?;
    let b = text.as_slice();
    let m = message(rt, b);
    let (settings, parameters) = (settings(alloc), parameters(alloc)?);
    let mut of_run = facts(alloc, BlockKind::Request, routing.uri)?;
    for _ in 0..2 {
        let code = loose_route(alloc, b, &m, &mut of_run, &settings, &parameters)?;
        assert_eq!(rt; code, routing.code);
        let wanted = (routing.to, routing.by, routing.left);
        goes(rt, alloc, b, &of_run, wanted)?;
    }
    Ok(())
}

#[test]
fn requests_are_routed_by_their_route_fields(rt: HostRuntime) -> Result<(), Fail> {
    let alloc = rt.alloc();
    for routing in &ROUTINGS {
        routes_so(&rt, alloc, routing)?;
    }
    Ok(())
}

/// How many edits are made before, the Route fields, the code, how many edits there are then, and the target.
const ROOM: [(usize, &str, i64, usize, &str); 5] = [
    (
        63,
        "Route: <sip:127.0.0.1;lr>\r\n",
        1,
        64,
        "sip:b@192.0.2.9",
    ),
    (
        64,
        "Route: <sip:127.0.0.1;lr>\r\n",
        -2,
        64,
        "sip:b@192.0.2.9",
    ),
    (
        64,
        "Route: <sip:192.0.2.50;lr>\r\n",
        1,
        64,
        "sip:b@192.0.2.9",
    ),
    // a strict router after us: the field is cut, and another goes back
    (
        62,
        "Route: <sip:127.0.0.1;lr>, <sip:192.0.2.50>\r\n",
        1,
        64,
        "sip:192.0.2.50",
    ),
    (
        63,
        "Route: <sip:127.0.0.1;lr>, <sip:192.0.2.50>\r\n",
        -2,
        63,
        "sip:b@192.0.2.9",
    ),
];

/// The codes of two calls, and the facts then, where so many edits are made before.
fn routed_twice(
    rt: &impl Abort,
    alloc: Global,
    made: usize,
    routes: &str,
) -> Result<(i64, i64, Facts), AllocError> {
    let text = request(alloc, routes)?;
    let b = text.as_slice();
    let m = message(rt, b);
    let (settings, parameters) = (settings(alloc), parameters(alloc)?);
    let mut of_run = facts_with_edits(rt, alloc, "sip:b@192.0.2.9", made)?;
    let first = loose_route(alloc, b, &m, &mut of_run, &settings, &parameters)?;
    let second = loose_route(alloc, b, &m, &mut of_run, &settings, &parameters)?;
    Ok((first, second, of_run))
}

#[test]
fn a_request_whose_edits_do_not_fit_is_not_routed(rt: HostRuntime) -> Result<(), Fail> {
    for (made, routes, code, after, to) in &ROOM {
        let (first, second, of_run) = routed_twice(&rt, rt.alloc(), *made, routes)?;
        assert_eq!(rt; (first, second), (*code, *code), "{made} edits, {routes}");
        assert_eq!(rt; of_run.edits.len(), *after, "{made} edits, {routes}");
        assert_eq!(rt; of_run.uri.bytes(), to.as_bytes(), "{made} edits, {routes}");
    }
    Ok(())
}
