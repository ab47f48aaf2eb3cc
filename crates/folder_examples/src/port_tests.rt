// Sounds, a microphone and a speaker in a real folder: each test has one of its own, and removes it.
use edit_ports::{Sink, Source, Vault};
use project_folder::{FileSink, FileSource, FolderVault};
use std::alloc::AllocError;
use std::fs;
use std::os::unix::fs::symlink;

/// A call on a sound, which is to succeed.
#[derive(Clone, Copy, Debug)]
enum OnSound {
    /// The sound has this size, or is absent.
    Size(&'static str, Option<u64>),
    /// This many bytes are read from the place on.
    Read(&'static str, u64, &'static [u8]),
    /// It begins anew.
    Start(&'static str),
    /// The bytes are put at its end.
    Append(&'static str, &'static [u8]),
}

// Whether the sound has this size, or is absent.
fn has_size<V: Vault>(vault: &mut V, name: &str, want: Option<u64>) -> bool {
    match (vault.size(name), want) {
        (Ok(Some(size)), Some(want)) => size == want,
        (Ok(None), None) => true,
        _ => false,
    }
}

fn does<V: Vault>(vault: &mut V, call: OnSound) -> bool {
    let mut buf = [9u8; 4];
    match call {
        OnSound::Size(name, want) => has_size(vault, name, want),
        OnSound::Read(name, at, want) => {
            at < 99
                && match vault.read_at(name, at, &mut buf) {
                    Ok(count) => &buf[..count] == want,
                    Err(_) => false,
                }
        }
        OnSound::Start(name) => vault.start(name).is_ok(),
        OnSound::Append(name, bytes) => vault.append(name, bytes).is_ok(),
    }
}

static ON_SOUNDS: [OnSound; 20] = [
    OnSound::Size("a.wav", None),
    OnSound::Read("a.wav", 0, b""),
    OnSound::Append("a.wav", b"abc"),
    OnSound::Append("a.wav", b"de"),
    OnSound::Read("a.wav", 2, b"cde"),
    OnSound::Start("b.wav"),
    OnSound::Size("b.wav", Some(0)),
    OnSound::Size("a.wav", Some(5)),
    OnSound::Start("a.wav"),
    OnSound::Append("a.wav", b"f"),
    OnSound::Size("a.wav", Some(1)),
    // One that is open to be written, then another that was opened to be read, then one that was read is written.
    OnSound::Read("b.wav", 0, b""),
    OnSound::Append("b.wav", b"gh"),
    OnSound::Read("a.wav", 0, b"f"),
    OnSound::Start("a.wav"),
    OnSound::Append("a.wav", b"i"),
    OnSound::Read("b.wav", 1, b"h"),
    OnSound::Start("b.wav"),
    OnSound::Read("a.wav", 0, b"i"),
    OnSound::Size("b.wav", Some(0)),
];

#[test]
fn sounds_are_kept_by_their_names(rt: HostRuntime) -> Result<(), AllocError> {
    let _ = fs::remove_dir_all(&rt, "folder-sounds");
    let mut vault = FolderVault::new(rt, rt.alloc(), "folder-sounds")?;
    for call in &ON_SOUNDS {
        assert!(rt; does(&mut vault, *call), "{call:?}");
    }
    assert!(rt; vault.faults() == 0);
    let _ = fs::remove_dir_all(&rt, "folder-sounds");
    Ok(())
}

// A link, one that leads nowhere, a folder, and names of no sound.
static OUT: [&'static str; 10] = [
    "b.wav",
    "c.wav",
    "d.wav",
    "../sounds/a.wav",
    "",
    ".",
    "..",
    ".a",
    "a/b",
    "a\0b",
];

// Whether each of the four calls on the sound fails.
fn all_fail<V: Vault>(vault: &mut V, name: &str) -> bool {
    let mut buf = [0u8; 4];
    vault.size(name).is_err()
        && vault.read_at(name, 0, &mut buf).is_err()
        && vault.start(name).is_err()
        && vault.append(name, b"x").is_err()
}

#[test]
fn links_and_names_that_lead_out_fail_among_sounds(rt: HostRuntime) -> Result<(), AllocError> {
    let _ = fs::remove_dir_all(&rt, "folder-out");
    let mut vault = FolderVault::new(rt, rt.alloc(), "folder-out")?;
    assert!(rt; does(&mut vault, OnSound::Append("a.wav", b"abc")));
    assert!(rt; symlink(&rt, "a.wav", "folder-out/sounds/b.wav").is_ok());
    assert!(rt; symlink(&rt, "none", "folder-out/sounds/c.wav").is_ok());
    assert!(rt; fs::create_dir(&rt, "folder-out/sounds/d.wav").is_ok());
    for name in &OUT {
        assert!(rt; all_fail(&mut vault, name), "{name}");
    }
    assert!(rt; vault.faults() == 40 && does(&mut vault, OnSound::Size("a.wav", Some(3))));
    let _ = fs::remove_dir_all(&rt, "folder-out");
    Ok(())
}

// Whether reads of two bytes each give this many.
fn gives<S: Source>(source: &mut S, counts: &[usize]) -> bool {
    let mut buf = [0u8; 2];
    for count in counts {
        match source.read(&mut buf) {
            Ok(given) if given == *count => {}
            _ => return false,
        }
    }
    true
}

#[test]
fn a_microphone_is_read_to_its_end(rt: HostRuntime) -> Result<(), AllocError> {
    let _ = fs::remove_dir_all(&rt, "folder-mic");
    assert!(rt; fs::create_dir(&rt, "folder-mic").is_ok());
    assert!(rt; fs::write(&rt, "folder-mic/mic.raw", b"abc".as_slice()).is_ok());
    let mut mic = FileSource::new(rt, rt.alloc(), "folder-mic", "mic.raw")?;
    assert!(rt; gives(&mut mic, &[2, 1, 0]) && mic.faults() == 0);
    assert!(rt; symlink(&rt, "mic.raw", "folder-mic/link.raw").is_ok());
    for name in ["none.raw", "link.raw", "."] {
        let mut none = FileSource::new(rt, rt.alloc(), "folder-mic", name)?;
        assert!(rt;
            none.faults() == 0 && !gives(&mut none, &[0]) && none.faults() == 1,
            "{name}"
        );
    }
    let _ = fs::remove_dir_all(&rt, "folder-mic");
    Ok(())
}

// Whether all of the bytes are taken at once.
fn takes<S: Sink>(sink: &mut S, bytes: &[u8]) -> bool {
    match sink.write(bytes) {
        Ok(count) => count == bytes.len(),
        Err(_) => false,
    }
}

// Whether the speaker's file has this many bytes.
fn is_heard(rt: HostRuntime, count: usize) -> bool {
    match fs::read(&rt, "folder-speaker/speaker.raw") {
        Ok(bytes) => bytes.len() == count,
        Err(_) => false,
    }
}

#[test]
fn a_speaker_begins_with_an_empty_file(rt: HostRuntime) -> Result<(), AllocError> {
    let _ = fs::remove_dir_all(&rt, "folder-speaker");
    assert!(rt; fs::create_dir(&rt, "folder-speaker").is_ok());
    for (first, want) in [(b"ab".as_slice(), 3), (b"".as_slice(), 1)] {
        let mut speaker = FileSink::new(rt, rt.alloc(), "folder-speaker", "speaker.raw")?;
        let is_taken = takes(&mut speaker, first) && takes(&mut speaker, b"c");
        assert!(rt; is_taken && speaker.faults() == 0 && is_heard(rt, want));
    }
    let mut empty = FileSink::new(rt, rt.alloc(), "folder-speaker", "speaker.raw")?;
    assert!(rt; takes(&mut empty, b"") && is_heard(rt, 0));
    assert!(rt; symlink(&rt, "speaker.raw", "folder-speaker/link.raw").is_ok());
    for name in ["none/speaker.raw", "link.raw", "."] {
        let mut none = FileSink::new(rt, rt.alloc(), "folder-speaker", name)?;
        assert!(rt; !takes(&mut none, b"a") && none.faults() == 1, "{name}");
    }
    let _ = fs::remove_dir_all(&rt, "folder-speaker");
    Ok(())
}
