// What names and ends of reading are printed as.
use lisa_io::{Failed, ReadEnd};
use lisa_words::Name;
use std::alloc::AllocError;
use std::test::Fail;

#[test]
fn names_are_printed(rt: HostRuntime) -> Result<(), Fail> {
    let alloc = rt.alloc();
    let name = Name::from_bytes(alloc, b"ab")?;
    let printed = format!(in alloc; "{name} {name:?}")?;
    assert_eq!(rt; printed.as_str(), "ab Name(ab)");
    Ok(())
}

#[test]
fn ends_are_printed(rt: HostRuntime) -> Result<(), Fail> {
    let cases = [
        (ReadEnd::from(Failed), "read fault"),
        (ReadEnd::TooLong, "too long"),
        (ReadEnd::from(AllocError), "out of memory"),
    ];
    for (end, expected) in cases {
        assert_eq!(rt; end.to_string(rt.alloc())?.as_str(), expected);
    }
    Ok(())
}
