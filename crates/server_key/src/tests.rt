//! Which keys are one, on a table, and copies of them.
use super::{Key, KeyView};
use std::test::Fail;

fn view<'a>(branch: &'a [u8], host: &'a [u8], port: u16, method: &'a [u8]) -> KeyView<'a> {
    KeyView {
        branch,
        host,
        port,
        method,
    }
}

fn into_thread<T: Send>(value: T) -> T {
    value
}

#[test]
fn keys_are_one_without_regard_to_the_case_of_the_host_alone(rt: HostRuntime) -> Result<(), Fail> {
    let first = view(b"z9hG4bKnashds8", b"Pc33.Atlanta.COM", 5060, b"INVITE");
    let cases = [
        (
            view(b"z9hG4bKnashds8", b"Pc33.Atlanta.COM", 5060, b"INVITE"),
            true,
        ),
        (
            view(b"z9hG4bKnashds8", b"pc33.atlanta.com", 5060, b"INVITE"),
            true,
        ),
        (
            view(b"z9hG4bKnashds8", b"PC33.ATLANTA.COM", 5060, b"INVITE"),
            true,
        ),
        (
            view(b"z9hG4bKNASHDS8", b"Pc33.Atlanta.COM", 5060, b"INVITE"),
            false,
        ),
        (
            view(b"z9hG4bKnashds", b"Pc33.Atlanta.COM", 5060, b"INVITE"),
            false,
        ),
        (view(b"", b"Pc33.Atlanta.COM", 5060, b"INVITE"), false),
        (
            view(b"z9hG4bKnashds8", b"Pc33.Atlanta.CO", 5060, b"INVITE"),
            false,
        ),
        (
            view(b"z9hG4bKnashds8", b"Pc33-Atlanta.COM", 5060, b"INVITE"),
            false,
        ),
        (
            view(b"z9hG4bKnashds8", b"Pc33.Atlanta.COM", 5061, b"INVITE"),
            false,
        ),
        (
            view(b"z9hG4bKnashds8", b"Pc33.Atlanta.COM", 5060, b"invite"),
            false,
        ),
        (
            view(b"z9hG4bKnashds8", b"Pc33.Atlanta.COM", 5060, b"BYE"),
            false,
        ),
        // The same bytes one after the other, cut at other places.
        (
            view(b"Mz9hG4bKnashds8", b"Pc33.Atlanta.CO", 5060, b"INVITE"),
            false,
        ),
        (
            view(b"z9hG4bKnashds8I", b"Pc33.Atlanta.COM", 5060, b"NVITE"),
            false,
        ),
    ];
    let kept = into_thread(Key::copy_of(rt.alloc(), first)?);
    for (other, want) in cases {
        assert_eq!(rt; first.is_same(other), want, "{other:?}");
        assert_eq!(rt; other.is_same(first), want, "{other:?}");
        assert_eq!(rt; kept.is_shown_by(other), want, "{other:?}");
    }
    Ok(())
}

#[test]
fn bytes_that_are_no_letters_have_no_case(rt: HostRuntime) -> Result<(), Fail> {
    for (a, b) in [
        (b'@', b'`'),
        (b'[', b'{'),
        (b'Z' + 1, b'z' + 1),
        (0xc4, 0xe4),
    ] {
        let a = [b'h', a];
        let b = [b'H', b];
        let one = view(b"b", &a, 5060, b"OPTIONS");
        let other = view(b"b", &b, 5060, b"OPTIONS");
        assert!(rt; one.is_same(one));
        assert!(rt; !one.is_same(other));
        assert!(rt; !Key::copy_of(rt.alloc(), one)?.is_shown_by(other));
    }
    Ok(())
}
