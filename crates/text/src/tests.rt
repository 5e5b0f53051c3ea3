// What rows hold after pushes, in ASCII.
use crate::printing::Row;

#[test]
fn texts_stand_one_behind_the_other(rt: HostRuntime) {
    let mut row = Row::new();
    assert_eq!(rt; row.as_slice(), b"".as_slice());
    row.push_text(b"refused ");
    row.push_decimal(14);
    row.push(32);
    row.push_hex(&[0x09, 0xfa, 0x70]);
    assert_eq!(rt; row.as_slice(), b"refused 14 09FA70".as_slice());
    row.push_text(b"");
    row.push_hex(&[]);
    assert_eq!(rt; row.as_slice(), b"refused 14 09FA70".as_slice());
    assert_eq!(rt;
        &row.bytes[17..],
        [0; 23].as_slice(),
        "zeros behind the text"
    );
}

#[test]
fn numbers_have_no_leading_zeros(rt: HostRuntime) {
    let cases: [(u64, &[u8]); 8] = [
        (0, b"0"),
        (9, b"9"),
        (10, b"10"),
        (309, b"309"),
        (4000, b"4000"),
        (12345, b"12345"),
        (65535, b"65535"),
        (99999, b"99999"),
    ];
    for (n, digits) in cases {
        let mut row = Row::new();
        row.push_decimal(n);
        assert_eq!(rt; row.as_slice(), digits, "{n}");
    }
}

// A row that did not begin as `new`: what stands behind the text stays, and a push may fill the row.
#[test]
fn bytes_behind_the_text_stay(rt: HostRuntime) {
    let mut row = Row {
        bytes: [7; 40],
        len: 33,
    };
    row.push(65);
    row.push_text(b"Bc");
    assert_eq!(rt; &row.bytes[33..], [65, 66, 99, 7, 7, 7, 7].as_slice());
    assert_eq!(rt; row.len, 36);
    row.push_hex(&[0xc4, 0x05]);
    assert_eq!(rt; &row.bytes[33..], b"ABcC405".as_slice());
    assert_eq!(rt; row.as_slice(), row.bytes.as_slice());
}
