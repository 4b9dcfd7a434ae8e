//! Lines of a text, as they are written.
use money_units::NoMemory;
use script_text::{Fields, append_line, push_field};
use std::alloc::Global;
use std::test::Fail;

// Three lines: of plain fields, of fields that are quoted, and of one empty field.
fn lines(alloc: Global) -> Result<Vec<u8>, NoMemory> {
    let mut out = Vec::new(alloc);
    append_line(alloc, &[b"ok".as_slice(), b"class", b"14"], &mut out)?;
    append_line(alloc, &[b"a,b".as_slice(), b"c\"d", b""], &mut out)?;
    append_line(alloc, &[b"".as_slice()], &mut out)?;
    Ok(out)
}

#[test]
fn a_line_is_appended_with_its_line_feed(rt: HostRuntime) -> Result<(), Fail> {
    let lines = lines(rt.alloc())?;
    assert_eq!(rt;
        lines.as_slice(),
        b"ok,class,14\n\"a,b\",\"c\"\"d\",\n\"\"\n".as_slice()
    );
    Ok(())
}

// Appends the fields of a record, with bars around and between them.
fn append_fields(line: &mut Vec<u8>, fields: &Fields) -> Result<(), NoMemory> {
    line.push(b'|')?;
    for text in fields.as_slice() {
        line.extend_from_slice(text.as_slice())?;
        line.push(b'|')?;
    }
    Ok(())
}

// Two fields, of which the second is empty.
fn pushed(alloc: Global) -> Result<Fields, NoMemory> {
    let mut fields = Fields::new(alloc);
    push_field(alloc, &mut fields, b"buy")?;
    push_field(alloc, &mut fields, b"")?;
    Ok(fields)
}

fn shown_two(alloc: Global) -> Result<Vec<u8>, NoMemory> {
    let mut line = Vec::new(alloc);
    append_fields(&mut line, &pushed(alloc)?)?;
    Ok(line)
}

#[test]
fn fields_are_those_that_were_pushed(rt: HostRuntime) -> Result<(), Fail> {
    assert_eq!(rt; Fields::new(rt.alloc()).len(), 0);
    assert_eq!(rt; pushed(rt.alloc())?.len(), 2);
    let line = shown_two(rt.alloc())?;
    assert_eq!(rt; line.as_slice(), b"|buy||".as_slice());
    Ok(())
}
