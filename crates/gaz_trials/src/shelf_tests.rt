//! Shelves read back, in memory and over a folder. A test over a folder removes what it wrote.
ghost use Rattle.std.specs.Prelude.{◌≤◌, length};

use gaz_outside::{Area, DirShelf, Failed, FileStation, MemShelf, Shelf, Station};
use std::alloc::{AllocError, Global};
use std::fs;
use std::fs::OpenOptions;
use std::os::unix::fs::FileExt;
use std::process::Abort;
use std::test::Fail;

/// Opens a file and reads parts of it: from a place, into so much room, the bytes that are expected.
fn read_parts<S: Shelf>(
    rt: &impl Abort,
    alloc: Global,
    shelf: &mut S,
    name: &str,
    parts: &[(u64, usize, &[u8])],
) -> Result<(), Fail>
    requires { length name.now ≤ 48 }
{
    let Ok(Some(file)) = shelf.open(name) else {
        panic!(rt; "{name} isn't opened")
    };
    for (at, room, bytes) in parts {
        let mut buf = vec![in alloc; 0; *room]?;
        match shelf.read(file, *at, &mut buf) {
            Ok(n) => assert_eq!(rt; &buf[..n], *bytes, "{name} from {at}"),
            Err(_) => panic!(rt; "{name} isn't read from {at}"),
        }
    }
    Ok(())
}

const ABCDEF: &[(u64, usize, &[u8])] = &[
    (0, 6, b"abcdef"),
    (0, 2, b"ab"),
    (2, 3, b"cde"),
    (5, 9, b"f"),
    (6, 9, b""),
    (7, 9, b""),
    (0, 0, b""),
    (1, 9, b"bcdef"),
];

const THREE: &[(&str, &[u8])] = &[
    ("a.txt", b"earlier"),
    ("empty.txt", b""),
    ("a.txt", b"abcdef"),
];

fn three_files(alloc: Global, fails: &[u64]) -> Result<MemShelf, AllocError> {
    let mut files = Vec::new(alloc);
    for (name, bytes) in THREE {
        files.push((String::from_str(alloc, name)?, bytes.to_vec(alloc)?))?;
    }
    MemShelf::new(files, fails.to_vec(alloc)?)
}

#[test]
fn files_in_memory_are_read_back(rt: HostRuntime) -> Result<(), Fail> {
    let alloc = rt.alloc();
    let mut shelf = three_files(alloc, &[])?;
    assert_eq!(rt; shelf.open("absent.txt"), Ok(None));
    read_parts(&rt, alloc, &mut shelf, "a.txt", ABCDEF)?;
    read_parts(&rt, alloc, &mut shelf, "empty.txt", &[(0, 9, b"")])?;
    shelf.close_all();
    read_parts(&rt, alloc, &mut shelf, "a.txt", ABCDEF)?;
    assert_eq!(rt; shelf.open("a.txt"), Ok(Some(2)));
    assert_eq!(rt; shelf.open("empty.txt"), Ok(Some(1)));
    Ok(())
}

#[test]
fn nth_call_in_memory_fails(rt: HostRuntime) -> Result<(), Fail> {
    let alloc = rt.alloc();
    for n in 1..5 {
        let mut shelf = three_files(alloc, &[n])?;
        assert_eq!(rt;
            shelf.open("a.txt").is_err(),
            n == 1,
            "the first call of {n}"
        );
        assert_eq!(rt;
            shelf.open("absent.txt").is_err(),
            n == 2,
            "the second call of {n}"
        );
        shelf.close_all();
        let Ok(Some(file)) = shelf.open("a.txt") else {
            assert_eq!(rt; n, 3);
            continue;
        };
        let mut buf = [0; 6];
        assert_eq!(rt;
            shelf.read(file, 0, &mut buf).is_err(),
            n == 4,
            "the fourth call of {n}"
        );
        assert_eq!(rt; shelf.read(file, 0, &mut buf), Ok(6));
        assert_eq!(rt; &buf, b"abcdef");
    }
    Ok(())
}

#[test]
fn files_of_a_folder_are_read_back(rt: HostRuntime) -> Result<(), Fail> {
    let alloc = rt.alloc();
    fs::write(&rt, "letters.txt", b"abcdef")?;
    fs::write(&rt, "empty.txt", b"")?;
    let mut shelf = DirShelf::new(&rt);
    assert_eq!(rt; shelf.open("absent.txt"), Ok(None));
    read_parts(&rt, alloc, &mut shelf, "letters.txt", ABCDEF)?;
    read_parts(&rt, alloc, &mut shelf, "empty.txt", &[(0, 9, b"")])?;
    fs::remove_file(&rt, "letters.txt")?;
    fs::remove_file(&rt, "empty.txt")?;
    Ok(())
}

#[test]
fn folder_is_no_file(rt: HostRuntime) -> Result<(), Fail> {
    fs::create_dir(&rt, "folder")?;
    let mut shelf = DirShelf::new(&rt);
    assert_eq!(rt; shelf.open("folder"), Err(Failed));
    assert_eq!(rt; shelf.open("a\0b"), Err(Failed));
    assert_eq!(rt; shelf.open(""), Ok(None));
    fs::remove_dir(&rt, "folder")?;
    Ok(())
}

#[test]
fn nine_open_files_are_too_many(rt: HostRuntime) -> Result<(), Fail> {
    let alloc = rt.alloc();
    fs::write(&rt, "nine.txt", b"abcdef")?;
    let mut shelf = DirShelf::new(&rt);
    for place in 0..8 {
        assert_eq!(rt; shelf.open("nine.txt"), Ok(Some(place)));
    }
    assert_eq!(rt; shelf.open("nine.txt"), Err(Failed));
    shelf.close_all();
    read_parts(&rt, alloc, &mut shelf, "nine.txt", ABCDEF)?;
    fs::remove_file(&rt, "nine.txt")?;
    Ok(())
}

/// Five GiB, of which nothing but the end is on the disk.
const FAR: u64 = 5 << 30;

#[test]
fn bytes_behind_4_gib_are_read(rt: HostRuntime) -> Result<(), Fail> {
    let file = OpenOptions::new()
        .write(true)
        .create(true)
        .open(&rt, "far.txt")?;
    file.write_all_at(b"end", FAR)?;
    let mut shelf = DirShelf::new(&rt);
    read_parts(
        &rt,
        rt.alloc(),
        &mut shelf,
        "far.txt",
        &[(FAR, 9, b"end"), (FAR - 1, 2, b"\0e"), (FAR + 3, 9, b"")],
    )?;
    fs::remove_file(&rt, "far.txt")?;
    Ok(())
}

#[test]
fn areas_behind_4_gib_are_read_back(rt: HostRuntime) -> Result<(), Fail> {
    let mut station = FileStation::new(&rt);
    assert_eq!(rt; station.write_at(Area::Left, FAR, b"end"), Ok(()));
    assert_eq!(rt; station.len(Area::Left), Ok(FAR + 3));
    let mut buf = [0; 4];
    assert_eq!(rt; station.read_at(Area::Left, FAR - 1, &mut buf), Ok(4));
    assert_eq!(rt; &buf, b"\0end");
    for name in ["mirror.mark", "mirror.left"] {
        fs::remove_file(&rt, name)?;
    }
    Ok(())
}
