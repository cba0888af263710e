// The digest of a small description.
use description_digest::digest;
use lisa_reader::read_description;
use std::test::Fail;

// Its text is `RESOURCE {`, `  REGISTER uint8 n;` and `}`, a line each, and the digest is that of `sha256sum`.
#[test]
fn the_canonical_text_is_digested(rt: HostRuntime) -> Result<(), Fail> {
    let alloc = rt.alloc();
    let description = read_description(alloc, b"RESOURCE{REGISTER uint8 n;}")?;
    let expected = [
        0xc4, 0x18, 0x4a, 0xdb, 0x6c, 0x35, 0xaa, 0xe8, 0x70, 0x1e, 0xfd, 0x19, 0x64, 0x11, 0xea,
        0x9b, 0xb5, 0x51, 0x29, 0x57, 0x7b, 0x04, 0xc9, 0xdb, 0x3f, 0x45, 0xa7, 0x02, 0x8d, 0x76,
        0xc4, 0x80,
    ];
    assert_eq!(rt; digest(alloc, &description)?, expected);
    Ok(())
}
