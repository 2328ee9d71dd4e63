//! Fields of protobuf, by docs/RULES.md, "Fields of protobuf". The first two are examples of protobuf's "Encoding".

use proto_fields::{
    Field, Value, are_fields, field_at, field_size, last_bytes, last_number, number_at, put_field,
    put_number, put_varint, varint_size,
};

/// A group of number 1 begins.
const BEGIN: u8 = 0x0b;

/// A group of number 1 ends.
const END: u8 = 0x0c;

#[test]
fn numbers(rt: HostRuntime) {
    let cases: [(&str, &[u8], Option<u64>); 10] = [
        ("150", &[0x96, 1], Some(150)),
        ("the greatest of one byte", &[127], Some(127)),
        (
            "2 ^ 63, in ten bytes",
            &[128, 128, 128, 128, 128, 128, 128, 128, 128, 1],
            Some(1 << 63),
        ),
        (
            "2 ^ 64 - 1",
            &[255, 255, 255, 255, 255, 255, 255, 255, 255, 1],
            Some(u64::MAX),
        ),
        (
            "2 ^ 64",
            &[128, 128, 128, 128, 128, 128, 128, 128, 128, 2],
            None,
        ),
        ("5, in three bytes", &[0x85, 128, 0], Some(5)),
        (
            "5, in ten bytes",
            &[0x85, 128, 128, 128, 128, 128, 128, 128, 128, 0],
            Some(5),
        ),
        (
            "5, in eleven bytes",
            &[0x85, 128, 128, 128, 128, 128, 128, 128, 128, 128, 0],
            None,
        ),
        ("no end", &[128, 128], None),
        ("no bytes", &[], None),
    ];
    for (name, bytes, want) in cases {
        let number = number_at(bytes).map(|(number, _)| number);
        assert!(rt; number == want, "{name}");
    }
}

#[test]
fn shortest_varints(rt: HostRuntime) {
    for i in 0..10 {
        let number = 1u64 << (7 * i);
        let mut out = Vec::with_capacity(rt.alloc(), 10).expect(&rt, "there is memory");
        if varint_size(number) <= 10 {
            put_varint(&mut out, number);
        }
        assert!(rt; out.len() == i + 1, "{i}");
        assert!(rt; number_at(&out) == Some((number, [].as_slice())), "{i}");
    }
}

#[test]
fn tags(rt: HostRuntime) {
    let cases: [(&str, &[u8], Option<u32>); 9] = [
        ("number 1", &[0x08, 0], Some(1)),
        ("number 1 in a longer varint", &[0x88, 128, 0, 0], Some(1)),
        ("number 0", &[0, 0], None),
        (
            "number 536,870,911",
            &[0xf8, 255, 255, 255, 0x0f, 0],
            Some(536_870_911),
        ),
        ("number 536,870,912", &[128, 128, 128, 128, 0x10, 0], None),
        ("eight bytes", &[0x09, 1, 2, 3, 4, 5, 6, 7, 8], Some(1)),
        ("four bytes of which one is missing", &[0x0d, 1, 2, 3], None),
        ("no such wire", &[0x0e, 0, 0], None),
        ("the end of no group", &[END], None),
    ];
    for (name, bytes, want) in cases {
        let number = field_at(bytes).map(|(field, _)| field.number);
        assert!(rt; number == want, "{name}");
    }
}

#[test]
fn groups(rt: HostRuntime) {
    let cases: [(&str, &[u8], bool); 6] = [
        (
            "a group in a group",
            &[BEGIN, 0x13, 0x18, 5, 0x14, END],
            true,
        ),
        ("one that another number ends", &[BEGIN, 0x14], false),
        (
            "two that end in the wrong order",
            &[BEGIN, 0x13, END, 0x14],
            false,
        ),
        ("one that stays open", &[BEGIN, 0x18, 5], false),
        ("one that isn't open", &[0x18, 5, END], false),
        ("one in which no field stands", &[BEGIN, 0, 0, END], false),
    ];
    for (name, bytes, want) in cases {
        assert!(rt; are_fields(bytes) == want, "{name}");
    }
}

#[test]
fn open_groups(rt: HostRuntime) {
    let mut bytes = [BEGIN; 202];
    bytes[101..].copy_from_slice(&[END; 101]);
    assert!(rt; are_fields(&bytes[1..201]), "100 are open at once");
    assert!(rt; !are_fields(&bytes), "101 are");
}

#[test]
fn the_last_counts(rt: HostRuntime) {
    let text = b"\x0a\x02no\x18\x01\x0a\x03yes\x0b\x0a\x02no\x0c\x08\x07\x18\x02\x1a\x00";
    if !are_fields(text) {
        assert!(rt; false, "they are fields");
        return;
    }
    assert!(rt; last_bytes(text, 1) == b"yes".as_slice());
    assert!(rt; last_bytes(text, 2) == b"".as_slice());
    assert!(rt; last_number(text, 3) == 2);
    assert!(rt; last_number(text, 2) == 0);
}

#[test]
fn sizes_of_fields(rt: HostRuntime) {
    assert!(rt; field_size(2, 7) == 9);
    assert!(rt; field_size(16, 128) == 132);
    assert!(rt; field_size(1, u64::MAX) == u64::MAX);
}

#[test]
fn written_bytes(rt: HostRuntime) {
    let mut out = Vec::with_capacity(rt.alloc(), 64).expect(&rt, "there is memory");
    if field_size(2, 7) <= 64 {
        put_field(2, b"testing", &mut out);
    }
    assert!(rt; out.as_slice() == b"\x12\x07testing".as_slice());
    let field = Field {
        number: 2,
        value: Value::Bytes(b"testing"),
    };
    assert!(rt; field_at(&out) == Some((field, b"".as_slice())));
}

#[test]
fn written_no_bytes(rt: HostRuntime) {
    let mut out = Vec::with_capacity(rt.alloc(), 64).expect(&rt, "there is memory");
    if field_size(1, 0) <= 64 {
        put_field(1, b"", &mut out);
    }
    assert!(rt; out.as_slice() == b"\x0a\x00".as_slice());
}

#[test]
fn written_numbers(rt: HostRuntime) {
    let mut out = Vec::with_capacity(rt.alloc(), 64).expect(&rt, "there is memory");
    if varint_size(8) + varint_size(150) <= 20 {
        put_number(1, 150, &mut out);
    }
    assert!(rt; out.as_slice() == b"\x08\x96\x01".as_slice());
    let field = Field {
        number: 1,
        value: Value::Number(150),
    };
    assert!(rt; field_at(&out) == Some((field, b"".as_slice())));
}
