// Objects and images that are read and printed.
use lisa_object::{ImageFault, ObjectFault, print_image, print_object, read_image, read_object};
use std::alloc::Global;
use std::test::Fail;

const IMAGE: &[u8] = b"image 1 00112233445566778899aabbccddeeff00112233445566778899aabbccddeeff\n";

const OBJECT: &[u8] =
    b"object 1 00112233445566778899aabbccddeeff00112233445566778899aabbccddeeff\n";

// What is printed of an image that is read, or the line at fault.
fn image_again(alloc: Global, text: &[u8]) -> Result<Vec<u8>, u32> {
    if text.len() > 4096 {
        return Err(0);
    }
    match read_image(alloc, text) {
        Ok(image) => print_image(alloc, &image).map_err(|_| 0u32),
        Err(ImageFault::NotAnImage { line }) => Err(line),
        Err(_) => Err(0),
    }
}

// What is printed of an object that is read, or the line at fault.
fn object_again(alloc: Global, text: &[u8]) -> Result<Vec<u8>, u32> {
    if text.len() > 4096 {
        return Err(0);
    }
    match read_object(alloc, text, 2) {
        Ok(object) => print_object(alloc, &object).map_err(|_| 0u32),
        Err(ObjectFault::NotAnObject { object: 2, line }) => Err(line),
        Err(_) => Err(0),
    }
}

// The line at fault of a text, or none where it is printed as it is.
fn fault(alloc: Global, head: &[u8], lines: &[u8]) -> Result<Option<u32>, Fail> {
    let mut text = Vec::from_slice(alloc, head)?;
    text.extend_from_slice(lines)?;
    let again = if head == IMAGE {
        image_again(alloc, &text)
    } else {
        object_again(alloc, &text)
    };
    match again {
        Ok(again) if again == text => Ok(None),
        Ok(_) => Err(Fail::from("another text")),
        Err(line) => Ok(Some(line)),
    }
}

const CELLS: &[u8] =
    b"memory prog 8 16 5\n82\n0\n0\n0\n0\nmemory m 64 2 1\nffffffffffffffff\nend\n";

const PARTS: &[u8] =
    b"section prog 8\nglobal start\nlabel start\ncell 80\nfix 0 6 s -2 +far -$\nequ n -18446744073709551615\nspace 3\nend\n";

const SECOND: &[u8] = b"section prog 8\nglobal far\nspace 3\nlabel far\ncell 0\nend\n";

#[test]
fn texts_are_printed_as_they_are_read_or_refused_by_line(rt: HostRuntime) -> Result<(), Fail> {
    let cases = [
        (IMAGE, CELLS, None),
        (IMAGE, b"end\n", None),
        (IMAGE, b"memory prog 8 16 17\n", Some(2)),
        (IMAGE, b"memory m 8 16 1\n00\nend\n", Some(3)),
        (IMAGE, b"memory m 8 16 1\nFF\nend\n", Some(3)),
        (IMAGE, b"memory m  8 16 1\n1\nend\n", Some(2)),
        (IMAGE, b"memory m 08 16 1\n1\nend\n", Some(2)),
        (IMAGE, b"memory m 8 16 2\n1\nend\n", Some(4)),
        (
            IMAGE,
            b"memory m 8 16 1\n1\nmemory m 8 16 1\n1\nend\n",
            Some(4),
        ),
        (IMAGE, b"memory m 8 16 1\n1\nend", Some(4)),
        (OBJECT, PARTS, None),
        (OBJECT, SECOND, None),
        (
            OBJECT,
            b"section prog 8\nglobal far\nspace 3\nlabel far\ncell 0\nend",
            Some(7),
        ),
        (
            OBJECT,
            b"section m 8\ncell 1\nfix 0 1 u 0 +a\nend\n",
            Some(4),
        ),
        (OBJECT, b"section m 8\nlabel a\nequ a 1\nend\n", Some(4)),
    ];
    for (head, lines, expected) in cases {
        assert_eq!(rt; fault(rt.alloc(), head, lines)?, expected);
    }
    Ok(())
}

#[test]
fn each_front_is_refused(rt: HostRuntime) -> Result<(), Fail> {
    for (head, lines) in [(IMAGE, CELLS), (OBJECT, PARTS)] {
        for end in 0..lines.len() {
            assert!(rt; fault(rt.alloc(), head, &lines[..end])?.is_some());
        }
    }
    Ok(())
}
