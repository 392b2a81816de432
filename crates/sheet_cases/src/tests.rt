// Worked examples of the public calls.
use base::{Cause, NameId, Refusal};
use sheet::{Sheet, read_quoted, write_quoted};
use std::test::Fail;

const SHIRT: &[u8] =
    b"style=\"Shirt 7\"\nnames=2\nname=\"Sleeve \"\"B\"\"\"\nname=\"Yoke\"\nasks=2\nask=\"YOKE\"\nask=-1\n";

// Written out, since a constant cannot call a function.
const BAD_TEXT: Refusal = Refusal {
    cause: Cause::BadText,
    place: 1,
};

const SHORT: Refusal = Refusal {
    cause: Cause::BufferShort,
    place: 0,
};

#[test]
fn quoted_names_are_read(rt: HostRuntime) {
    assert_eq!(rt; read_quoted(b"\"Yoke\"", 0), Ok((1, 5, 6)));
    assert_eq!(rt; read_quoted(b"x=\"a\"\"b\"y", 2), Ok((3, 7, 8)));
    assert_eq!(rt; read_quoted(b"\"\"\"\"", 0), Ok((1, 3, 4)));
    assert_eq!(rt; read_quoted(b"\"\"", 0), Err(BAD_TEXT));
    assert_eq!(rt; read_quoted(b"\"open", 0), Err(BAD_TEXT));
    assert_eq!(rt; read_quoted(b"\"Yoke\"", 6), Err(BAD_TEXT));
    assert_eq!(rt; read_quoted(b"\"Yoke\"", usize::MAX), Err(BAD_TEXT));
}

#[test]
fn texts_are_written(rt: HostRuntime) {
    let mut tail = [b'.'; 8];
    assert_eq!(rt; write_quoted(&mut tail, b"a\"b"), Ok(6));
    assert_eq!(rt; tail, *b"\"a\"\"b\"..");
    assert_eq!(rt; write_quoted(&mut tail, b""), Err(BAD_TEXT));
    assert_eq!(rt; write_quoted(&mut tail, b"a\nb"), Err(BAD_TEXT));
    assert_eq!(rt; write_quoted(&mut tail, b"seven77"), Err(SHORT));
    assert_eq!(rt; tail, *b"\"a\"\"b\"..");
}

#[test]
fn texts_have_at_most_32_bytes(rt: HostRuntime) {
    let mut tail = [b'.'; 67];
    assert_eq!(rt; write_quoted(&mut tail, &[b'"'; 32]), Ok(66));
    assert_eq!(rt; read_quoted(&tail, 0), Ok((1, 65, 66)));
    assert_eq!(rt; write_quoted(&mut tail, &[b'a'; 33]), Err(BAD_TEXT));
    assert_eq!(rt; tail[66], b'.');
}

#[test]
fn a_sheet_answers(rt: HostRuntime) -> Result<(), Fail> {
    let Ok(sheet) = Sheet::read(SHIRT) else {
        return Err(Fail::new("refused"));
    };
    assert_eq!(rt; sheet.style(), b"Shirt 7".as_slice());
    assert_eq!(rt; sheet.name_count(), 2);
    assert_eq!(rt; sheet.name(NameId(0)), Some(b"Sleeve \"\"B\"\"".as_slice()));
    assert_eq!(rt; sheet.name(NameId(2)), None);
    assert_eq!(rt; sheet.asks(), [1, -1].as_slice());
    Ok(())
}

#[test]
fn texts_are_looked_up(rt: HostRuntime) -> Result<(), Fail> {
    let Ok(sheet) = Sheet::read(SHIRT) else {
        return Err(Fail::new("refused"));
    };
    assert_eq!(rt; sheet.lookup(b"sleeve \"b\""), Some(NameId(0)));
    assert_eq!(rt; sheet.lookup(b"yOKE"), Some(NameId(1)));
    assert_eq!(rt; sheet.lookup(b"sleeve \"\"b\"\""), None);
    assert_eq!(rt; sheet.lookup(b"Yok"), None);
    assert_eq!(rt; sheet.lookup(b""), None);
    Ok(())
}

#[test]
fn lines_are_written_back(rt: HostRuntime) -> Result<(), Fail> {
    let Ok(sheet) = Sheet::read(SHIRT) else {
        return Err(Fail::new("refused"));
    };
    let mut tail = [b'.'; 8];
    assert_eq!(rt; sheet.line_count(), 7);
    assert_eq!(rt; sheet.write_line(&mut tail, 5), Ok(6));
    assert_eq!(rt; tail, *b"ask=1\n..");
    assert_eq!(rt; sheet.write_line(&mut tail, 2), Err(SHORT));
    assert_eq!(rt; sheet.write_line(&mut tail, 7), Ok(0));
    Ok(())
}
