// Folders in memory and of the system, and the longest file.
use io_edges::{DiskFolder, File, Folder, Got, MemFolder, SureFolder};
use jv_base::Name;
use jv_list::List;
use std::process::Abort;
use std::test::Fail;
use std::{env, fs, process};

fn file<R: Abort + AllocGlobal>(rt: &R, path: &str, bytes: &[u8]) -> File {
    let alloc = rt.alloc();
    File {
        path: Name::from_text(alloc, path).expect(rt, "memory"),
        bytes: List::from_vec(bytes.to_vec(alloc).expect(rt, "memory")),
    }
}

/// Two files of one path, of which the first counts, and another.
fn three<R: Abort + AllocGlobal>(rt: &R) -> List<File> {
    let alloc = rt.alloc();
    let mut files = Vec::new(alloc);
    files.push(file(rt, "a", b"one")).expect(rt, "memory");
    files.push(file(rt, "a", b"two")).expect(rt, "memory");
    files.push(file(rt, "b/c", b"")).expect(rt, "memory");
    List::from_vec(files)
}

/// What an answer is, and the bytes that were found.
fn seen(got: &Got) -> (&str, &[u8]) {
    match got {
        Got::Found(bytes) => ("found", bytes.as_slice()),
        Got::Absent => ("absent", &[]),
        Got::TooLong => ("too long", &[]),
        Got::Failed => ("failed", &[]),
        Got::NoMemory => ("no memory", &[]),
    }
}

/// What a folder answers, the bytes that were found, and how many faults it counts then.
fn answer<F: Folder, R: Abort + AllocGlobal>(rt: &R, folder: &mut F, path: &str) -> String {
    let got = folder.read(rt.alloc(), path);
    let (kind, bytes) = seen(&got);
    format!(in rt.alloc(); "{kind} {bytes:?} {}", folder.faults()).expect(rt, "memory")
}

#[test]
fn a_folder_in_memory_fails_the_listed_reads(rt: HostRuntime) {
    let alloc = rt.alloc();
    let mut folder = MemFolder::new(
        three(&rt),
        List::from_vec(vec![in alloc; 1u32].expect(&rt, "memory")),
    );
    let answers = [
        ("a", "found [111, 110, 101] 0"),
        ("a", "failed [] 1"),
        ("b/c", "found [] 1"),
        ("b", "absent [] 1"),
        ("a", "found [111, 110, 101] 1"),
    ];
    for (path, text) in answers {
        assert!(rt; answer(&rt, &mut folder, path).as_str() == text);
    }
    let mut asked = String::new(alloc);
    for path in folder.asked() {
        asked.push_str(path.as_str()).expect(&rt, "memory");
        asked.push(' ').expect(&rt, "memory");
    }
    assert!(rt; asked.as_str() == "a a b/c b a ");
}

#[test]
fn a_sure_folder_has_no_faults(rt: HostRuntime) {
    let alloc = rt.alloc();
    let mut folder = SureFolder::new(three(&rt));
    assert!(rt; answer(&rt, &mut folder, "a").as_str() == "found [111, 110, 101] 0");
    assert!(rt; answer(&rt, &mut folder, "").as_str() == "absent [] 0");
}

#[test]
fn a_file_has_at_most_16777216_bytes(rt: HostRuntime) {
    let alloc = rt.alloc();
    for (length, kind) in [(16_777_216, "found"), (16_777_217, "too long")] {
        let mut files = Vec::new(alloc);
        files
            .push(File {
                path: Name::from_text(alloc, "long").expect(&rt, "memory"),
                bytes: List::from_vec(vec![in alloc; 7u8; length].expect(&rt, "memory")),
            })
            .expect(&rt, "memory");
        let got = SureFolder::new(List::from_vec(files)).read(alloc, "long");
        let (kind_seen, bytes) = seen(&got);
        assert!(rt; kind_seen == kind);
        assert!(rt; bytes.is_empty() || bytes.len() == length);
    }
}

/// A path for a test's file in the system's folder for such files.
fn temporary(rt: &HostRuntime, name: &str) -> Result<String, Fail> {
    let folder = env::temp_dir(rt)?;
    let folder = folder.as_path().to_str().ok_or("a path that is no text")?;
    let id = process::id(rt.process());
    Ok(format!(in rt.alloc(); "{folder}/cf_tests_{name}_{id}")?)
}

#[test]
fn the_folder_of_the_system_reads_a_file(rt: HostRuntime) -> Result<(), Fail> {
    let path = temporary(&rt, "file")?;
    fs::write(&rt, path.as_str(), b"a\0b".as_slice())?;
    let mut folder = DiskFolder::new(&rt);
    let found = answer(&rt, &mut folder, path.as_str());
    fs::remove_file(&rt, path.as_str())?;
    assert!(rt; found.as_str() == "found [97, 0, 98] 0");
    let answers = [
        (path.as_str(), "absent [] 0"),
        ("", "absent [] 0"),
        ("/", "failed [] 1"),
        ("a\0b", "failed [] 2"),
    ];
    for (path, text) in answers {
        assert!(rt; answer(&rt, &mut folder, path).as_str() == text);
    }
    Ok(())
}

#[test]
fn the_folder_of_the_system_refuses_a_long_file(rt: HostRuntime) -> Result<(), Fail> {
    let path = temporary(&rt, "long")?;
    let file = fs::File::create(&rt, path.as_str())?;
    let mut folder = DiskFolder::new(&rt);
    for (length, kind) in [(16_777_216, "found"), (16_777_217, "too long")] {
        file.set_len(length)?;
        let got = folder.read(rt.alloc(), path.as_str());
        assert!(rt; seen(&got).0 == kind);
    }
    fs::remove_file(&rt, path.as_str())?;
    Ok(())
}
