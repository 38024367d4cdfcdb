//! The real ends on real files, and on readers and writers that fail.

ghost use Rattle.std.specs.Prelude.{◌≡◌, ◌≤◌, length, IfOk};

use crate::file_source::FileSource;
use crate::file_world::FileWorld;
use crate::out_sink::OutSink;
use crate::same::{same, same_list};
use crate::words::words;
use dn_io::{CallBook, Failed, Sink, Source, World};
use std::alloc::Global;
use std::env::FillError;
use std::fs::File;
use std::io::{ErrorKind, Read, Write};
use std::rt::Env;
use std::test::Fail;
use std::{env, fs, io, process};

/// A file's name in the folder for temporary files, which no other process uses.
fn temporary(rt: &HostRuntime, end: &str) -> io::Result<String> {
    let folder = env::temp_dir(rt)?;
    let number = process::id(rt.process());
    Ok(format!(in rt.alloc(); "{}/deltanet-{number}-{end}", folder.as_str())?)
}

/// Whether the source at this place is out, and whether it has failed.
fn state(calls: &CallBook, place: usize) -> Option<(bool, bool)> {
    if place < calls.len() {
        Some((calls.is_out(place), calls.has_failed(place)))
    } else {
        None
    }
}

#[test]
#[tactic(auto, using(crate::proofs::Entries::entries))]
fn reads_a_file_to_its_end(rt: HostRuntime) -> Result<(), Fail> {
    let name = temporary(&rt, "feed")?;
    let mut content = vec![in rt.alloc(); b'x'; 4096]?;
    content.extend_from_slice(b"tail")?;
    fs::write(&rt, name.as_str(), content.as_slice())?;
    let mut world = FileWorld::new(rt.alloc(), &rt);
    let Ok(mut source) = world.source_of(name.as_str()) else {
        panic!(&rt; "not opened");
    };
    let mut buf = [b'-'; 5000];
    same(&rt, &source.read(&mut buf), &Ok(4096));
    same(&rt, &buf[0], &b'x');
    same(&rt, &buf[4095], &b'x');
    same(&rt, &buf[4096], &b'-');
    same(&rt, &source.read(&mut buf), &Ok(4));
    same(&rt, &buf[0], &b't');
    same(&rt, &buf[3], &b'l');
    same(&rt, &buf[4], &b'x');
    same(&rt, &source.read(&mut buf), &Ok(0));
    same(&rt, &state(world.calls(), 0), &Some((true, false)));
    world.give_back(source);
    same(&rt, &state(world.calls(), 0), &Some((false, false)));
    fs::remove_file(&rt, name.as_str())?;
    Ok(())
}

#[test]
#[tactic(auto, using(crate::proofs::Entries::entries))]
fn counts_files_that_fail(rt: HostRuntime) -> Result<(), Fail> {
    let mut world = FileWorld::new(rt.alloc(), &rt);
    assert!(rt; world.source_of("/no-such-folder/feed").is_err());
    same(&rt, &state(world.calls(), 0), &Some((false, true)));
    let mut world = FileWorld::new(rt.alloc(), &rt);
    let Ok(mut folder) = world.source_of("/") else {
        panic!(&rt; "not opened");
    };
    let mut buf = [b'-'; 4];
    same(&rt, &folder.read(&mut buf), &Err(Failed));
    same_list(&rt, &buf, b"----");
    world.give_back(folder);
    same(&rt, &state(world.calls(), 0), &Some((false, true)));
    Ok(())
}

/// A reader that gives `ab`, is interrupted once, gives `c`, and ends.
#[derive(Drop)]
struct Interrupted {
    calls: u8,
}

impl Read for Interrupted {
    fn read(&mut self, buf: &mut [u8]) -> io::Result<usize> {
        self.calls = self.calls.saturating_add(1);
        let mut next: &[u8] = match self.calls {
            1 => b"ab",
            2 => return Err(io::Error::from(ErrorKind::Interrupted)),
            3 => b"c",
            _ => b"",
        };
        next.read(buf)
    }
}

#[test]
fn counts_a_read_that_fails_and_goes_on(rt: HostRuntime) {
    let mut source = FileSource::new(Interrupted { calls: 0 }, 3);
    let mut buf = [b'-'; 4];
    same(&rt, &source.read(&mut buf), &Ok(2));
    same_list(&rt, &buf, b"ab--");
    same(&rt, &source.read(&mut buf), &Err(Failed));
    same(&rt, &source.read(&mut buf), &Ok(1));
    same_list(&rt, &buf, b"cb--");
    same(&rt, &source.read(&mut buf), &Ok(0));
    same(&rt, &source.close(), &(3, true));
}

#[test]
fn writes_to_a_file(rt: HostRuntime) -> Result<(), Fail> {
    let name = temporary(&rt, "report")?;
    let mut sink = OutSink::new(File::create(&rt, name.as_str())?);
    same(&rt, &sink.write(b"done\n"), &Ok(5));
    same(&rt, &sink.write(b""), &Ok(0));
    drop(sink);
    same(
        &rt,
        &fs::read_to_string(&rt, name.as_str())?.as_str(),
        &"done\n",
    );
    fs::remove_file(&rt, name.as_str())?;
    Ok(())
}

/// A writer that takes nothing.
#[derive(Drop)]
struct Stopped;

impl Write for Stopped {
    fn write(&mut self, _buf: &[u8]) -> io::Result<usize> {
        Ok(0)
    }

    fn flush(&mut self) -> io::Result<()> {
        Ok(())
    }
}

#[test]
fn counts_writes_that_take_nothing(rt: HostRuntime) -> Result<(), Fail> {
    let mut stopped = OutSink::new(Stopped);
    same(&rt, &stopped.write(b""), &Ok(0));
    same(&rt, &stopped.write(b"done\n"), &Err(Failed));
    let device = fs::OpenOptions::new().write(true).open(&rt, "/dev/full")?;
    let mut full = OutSink::new(device);
    same(&rt, &full.write(b"done\n"), &Err(Failed));
    Ok(())
}

/// A command line of the program's name and one byte.
#[derive(Clone, Copy)]
struct Given {
    byte: u8,
}

fn fill(buf: &mut [u8], word: &[u8]) -> Result<usize, FillError>
    ensures { IfOk result (λ n. n ≤ length buf.new) }
{
    if buf.len() < word.len() {
        return Err(FillError::TooLong);
    }
    buf[..word.len()].copy_from_slice(word);
    Ok(word.len())
}

impl Env for Given {
    fn arg(&self, i: usize, buf: &mut [u8]) -> Result<usize, FillError> {
        match i {
            0 => fill(buf, b"deltanet"),
            1 => fill(buf, &[self.byte]),
            _ => Err(FillError::NotPresent),
        }
    }

    fn var(&self, _name: &str, _buf: &mut [u8]) -> Result<usize, FillError> {
        Err(FillError::NotPresent)
    }

    fn var_at(&self, _i: usize, _buf: &mut [u8]) -> Result<usize, FillError> {
        Err(FillError::NotPresent)
    }
}

#[test]
fn words_that_are_not_text_are_none(rt: HostRuntime) -> Result<(), Fail> {
    let read = words(&(Given { byte: b'x' }, rt.alloc()))?;
    same(&rt, &read.len(), &2);
    let unread = words(&(Given { byte: 0xff }, rt.alloc()))?;
    same(&rt, &unread.len(), &0);
    Ok(())
}
