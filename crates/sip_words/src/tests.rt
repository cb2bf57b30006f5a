//! Readers on texts, worked out by hand.
use crate::{
    Class, Param, Params, Span, Surroundings, byte_end, lws_end, number_at, params_at, put,
    quoted_end, split_once, v4_at, word_at, word_end,
};

fn span(from: usize, to: usize) -> Span {
    Span { from, to }
}

/// The example of [`Class`].
#[test]
fn a_status_line_is_read_word_by_word(rt: HostRuntime) {
    let text = b"SIP/2.0 180 Ringing";
    let code = word_at(text, 0, b"sip/2.0").and_then(|end| byte_end(text, end, b' '));
    assert_eq!(rt; code, Some(8));
    assert_eq!(rt; number_at(text, 8, 3), Some((180, 11)));
    assert_eq!(rt; word_end(text, 12, Class::Token), Some(19));
    assert_eq!(rt; word_end(text, 11, Class::Token), None);
}

#[test]
fn lws_is_blanks_and_folds(rt: HostRuntime) {
    let rows: [(&[u8], usize); 7] = [
        (b"x", 0),
        (b" \tx", 2),
        (b"\r\n x", 3),
        (b"\r\nx", 0),
        (b"\r x", 0),
        (b"\t\r\n \r\n\tx", 7),
        (b"  \r\n", 2),
    ];
    for (text, end) in rows {
        assert_eq!(rt; lws_end(text, 0), end);
    }
}

#[test]
fn quoted_strings_end_at_a_quote_without_a_backslash(rt: HostRuntime) {
    let rows: [(&[u8], Option<usize>); 6] = [
        (b"\"", Some(1)),
        (b"a\";", Some(2)),
        (b"a\\\"b\"", Some(5)),
        (b"\\\\\"", Some(3)),
        (b"a\\\"", None),
        (b"a\\", None),
    ];
    for (text, end) in rows {
        assert_eq!(rt; quoted_end(text, 0), end);
    }
}

#[test]
fn numbers_have_few_digits(rt: HostRuntime) {
    let rows: [(&[u8], Option<(u64, usize)>); 5] = [
        (b"123", Some((123, 3))),
        (b"007;", Some((7, 3))),
        (b"1234", None),
        (b"", None),
        (b"-1", None),
    ];
    for (text, number) in rows {
        assert_eq!(rt; number_at(text, 0, 3), number);
    }
}

#[test]
fn the_first_parameter_of_a_name_counts(rt: HostRuntime) {
    let text = b" ;branch=z9;x;Branch=q ;\r\n rport;received=\"a;b\" ,";
    let branch = Param {
        whole: span(1, 11),
        name: span(2, 8),
        value: Some(span(9, 11)),
    };
    let rport = Param {
        whole: span(23, 32),
        name: span(27, 32),
        value: None,
    };
    let received = Param {
        whole: span(32, 47),
        name: span(33, 41),
        value: Some(span(42, 47)),
    };
    let params = Params {
        branch: Some(branch),
        received: Some(received),
        rport: Some(rport),
        tag: None,
        lr: None,
        end: 47,
    };
    assert_eq!(rt; params_at(text, 0, Surroundings::Field), Some(params));
}

#[test]
fn parameters_end_where_no_semicolon_stands(rt: HostRuntime) {
    let rows: [(&[u8], Surroundings, Option<usize>); 11] = [
        (b"", Surroundings::Field, Some(0)),
        (b" , x", Surroundings::Field, Some(0)),
        (b";lr;x=a?b", Surroundings::Field, Some(9)),
        (b";lr;x=a?b", Surroundings::Uri, Some(7)),
        (b";a ;b", Surroundings::Uri, Some(2)),
        (b"; a", Surroundings::Uri, None),
        (b";=a", Surroundings::Field, None),
        (b";a=", Surroundings::Field, None),
        (b";a=\"b", Surroundings::Field, None),
        (b";a= b", Surroundings::Field, None),
        (b";a;", Surroundings::Field, None),
    ];
    for (text, surroundings, end) in rows {
        assert_eq!(rt;
            params_at(text, 0, surroundings).map(|params| params.end),
            end
        );
    }
}

#[test]
fn classes_differ_at_their_edges(rt: HostRuntime) {
    let rows: [(Class, u8, bool); 14] = [
        (Class::Token, b'~', true),
        (Class::Token, b'=', false),
        (Class::Name, b'_', true),
        (Class::Name, b'+', false),
        (Class::Digit, b':', false),
        (Class::Letter, b'@', false),
        (Class::Value, b'?', true),
        (Class::Value, b'\r', false),
        (Class::UriValue, b'?', false),
        (Class::UriValue, b'\r', true),
        (Class::Visible, 127, false),
        (Class::Visible, 255, true),
        (Class::User, b':', false),
        (Class::Password, b':', true),
    ];
    for (class, byte, has) in rows {
        assert_eq!(rt; class.has(byte), has);
    }
}

#[test]
fn bytes_are_cut_at_the_first_of_a_kind(rt: HostRuntime) {
    assert!(rt; split_once(b"a:b:c", b':') == Some((b"a".as_slice(), b"b:c".as_slice())));
    assert!(rt; split_once(b"abc", b':').is_none());
}

#[test]
fn addresses_have_four_numbers(rt: HostRuntime) {
    let rows: [(&[u8], Option<(u32, usize)>); 6] = [
        (b"192.0.2.1", Some((0xc000_0201, 9))),
        (b"192.000.2.01:5060", Some((0xc000_0201, 12))),
        (b"192.0.2", None),
        (b"192.0.2.256", None),
        (b"192.0.2.0001", None),
        (b"a.0.2.1", None),
    ];
    for (text, address) in rows {
        assert_eq!(rt; v4_at(text, 0), address);
    }
}

#[test]
fn a_text_is_written_in_pieces(rt: HostRuntime) {
    let mut room = [0; 8];
    let len = put(&mut room, 0, b"Via: ");
    assert_eq!(rt; put(&mut room, len, b"SIP"), 8);
    assert_eq!(rt; room.as_slice(), b"Via: SIP".as_slice());
    // What doesn't fit is counted alone.
    assert_eq!(rt; put(&mut room, 8, b"/2.0"), 12);
    assert_eq!(rt; room.as_slice(), b"Via: SIP".as_slice());
}
