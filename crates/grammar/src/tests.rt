// What people type and what the supply prints, as tables.
use super::*;

// What a text reads as, in millionths, and where it stops being the beginning of a number.
const NUMBERS: [(&[u8], Option<i64>, usize); 16] = [
    (b"10.5875", Some(10_587_500), 7),
    (b"-10.5875", Some(-10_587_500), 8),
    (b"-0", Some(0), 2),
    (b"007.50", Some(7_500_000), 6),
    (b"0.000001", Some(1), 8),
    (b"9999.999999", Some(9_999_999_999), 11),
    (b"-9999.999999", Some(-9_999_999_999), 12),
    (b"10000", None, 4),
    (b"1.0000001", None, 8),
    (b"1.", None, 2),
    (b".5", None, 0),
    (b"-", None, 1),
    (b"", None, 0),
    (b"1e3", None, 1),
    (b"5,2", None, 1),
    (b"1-2", None, 1),
];

// What a quantity of so many millionths prints as.
const PRINTED: [(i64, &[u8]); 7] = [
    (0, b"0"),
    (10_587_500, b"10.5875"),
    (-1, b"-0.000001"),
    (7_500_000, b"7.5"),
    (100_000_000, b"100"),
    (-9_999_999_999, b"-9999.999999"),
    (1_000_010, b"1.00001"),
];

const MASKS: [(&[u8], Option<u32>); 8] = [
    (b"0XfF", Some(255)),
    (b"0x0", Some(0)),
    (b"0xFFFFFFFF", Some(0xFFFF_FFFF)),
    (b"0x123456789", None),
    (b"0x", None),
    (b"0x1G", None),
    (b"1x1", None),
    (b"", None),
];

const INDICES: [(&[u8], Option<u32>); 7] = [
    (b"0", Some(0)),
    (b"007", Some(7)),
    (b"999", Some(999)),
    (b"1000", None),
    (b"-1", None),
    (b"1A", None),
    (b"", None),
];

#[test]
fn numbers(rt: HostRuntime) {
    for (typed, millionths, stops) in &NUMBERS {
        assert_eq!(rt; read_number(typed).map(Quantity::millionths), *millionths);
        assert_eq!(rt; number_prefix(typed), *stops);
    }
    for (millionths, text) in &PRINTED {
        assert_eq!(rt;
            print_number(Quantity::clamped(*millionths)).as_bytes(),
            *text
        );
    }
}

#[test]
fn masks_and_indices(rt: HostRuntime) {
    for (typed, mask) in &MASKS {
        assert_eq!(rt; read_mask(typed), *mask);
    }
    assert_eq!(rt; print_mask(255).as_bytes(), b"0xFF".as_slice());
    assert_eq!(rt; print_mask(0).as_bytes(), b"0x0".as_slice());
    for (typed, index) in &INDICES {
        assert_eq!(rt; read_index(typed), *index);
    }
    assert_eq!(rt;
        print_count(4_294_967_295).as_bytes(),
        b"4294967295".as_slice()
    );
}

#[test]
fn quantities(rt: HostRuntime) {
    assert!(rt; Quantity::new(10_000_000_000).is_none());
    assert!(rt; Quantity::new(-9_999_999_999).is_some());
    assert_eq!(rt;
        Quantity::clamped(10_000_000_000).millionths(),
        9_999_999_999
    );
    assert_eq!(rt; Quantity::clamped(i64::MIN).millionths(), -9_999_999_999);
}

#[test]
fn texts_and_words(rt: HostRuntime) {
    assert!(rt; is_text(b"PS 2, hall B"));
    assert!(rt; is_text(b"abcdefghijklmnopqrstuvwx"));
    assert!(rt; !is_text(b"abcdefghijklmnopqrstuvwxy"));
    assert!(rt; !is_text(b""));
    assert!(rt; !is_text(b"why?"));
    assert!(rt; !is_text(b"a:b"));
    assert!(rt; !is_text(b"tab\there"));
    assert!(rt; Text::absent().is_absent());
    assert!(rt; Text::new(b"any\r\n:?bytes").is_some());
    assert!(rt; read_text(b"a:b").is_none());
    assert!(rt; same_word(b"ps-admin", b"PS-Admin"));
    assert!(rt; !same_word(b"MON", b"MO"));
}

#[test]
fn fields_and_appending(rt: HostRuntime) {
    let fields = split_fields(b"MWG:16::x");
    assert_eq!(rt; fields.count, 4);
    assert_eq!(rt; fields.first, b"MWG".as_slice());
    assert_eq!(rt; fields.second, b"16".as_slice());
    assert_eq!(rt; fields.third, b"".as_slice());
    assert_eq!(rt; split_fields(b"").count, 1);
    let mut out = [b'.'; 6];
    assert_eq!(rt; append(&mut out, 1, b"#AK"), Some(4));
    assert_eq!(rt; append(&mut out, 4, b"#AK"), None);
    assert_eq!(rt; append(&mut out, usize::MAX, b"#AK"), None);
    assert_eq!(rt; out.as_slice(), b".#AK..".as_slice());
}
