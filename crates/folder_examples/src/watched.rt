// Files of the system that are counted, and that fail where a test wants it.
use crate::flags::{Place, place_at};
use crate::watch::{Call, Watch};
use std::alloc::AllocError;
use std::fs::{self, FileTimes, Metadata, OpenFile, OpenOptions};
use std::io::{self, Read, Seek, SeekFrom, Write};
use std::os::unix::fs::FileExt;
use std::rc::Rc;
use std::rt::Files;

/// A runtime whose calls on files are watched.
#[derive(Drop)]
pub(crate) struct Watched<R> {
    inner: R,
    watch: Rc<Watch>,
}

/// An open file, or an open folder, whose calls are watched.
pub(crate) struct WatchedFile<F> {
    inner: F,
    place: Place,
    watch: Rc<Watch>,
}

impl<F: Drop> Drop for WatchedFile<F> {
    fn drop(self) {
        let WatchedFile {
            inner: _,
            place: _,
            watch,
        } = self;
        watch.open.set(watch.open.get().saturating_sub(1));
    }
}

/// The names of an open folder, whose reads are watched.
#[derive(Drop)]
pub(crate) struct WatchedNames<D> {
    inner: D,
    watch: Rc<Watch>,
}

impl<D: Read> Read for WatchedNames<D> {
    fn read(&mut self, buf: &mut [u8]) -> io::Result<usize> {
        self.watch.meet(Call::Read)?;
        let most = self.watch.most.get().min(buf.len());
        self.inner.read(&mut buf[..most])
    }
}

/// The files of the system, and the watch over them.
pub(crate) fn watch_files(
    rt: HostRuntime,
) -> Result<(Watched<HostRuntime>, Rc<Watch>), AllocError> {
    let watch = Rc::new(rt.alloc(), Watch::new())?;
    let files = Watched {
        inner: rt,
        watch: watch.clone()?,
    };
    Ok((files, watch))
}

impl<F: Read> Read for WatchedFile<F> {
    fn read(&mut self, buf: &mut [u8]) -> io::Result<usize> {
        self.watch.meet(Call::Read)?;
        let most = self.watch.most.get().min(buf.len());
        self.inner.read(&mut buf[..most])
    }
}

impl<F: Write> Write for WatchedFile<F> {
    fn write(&mut self, buf: &[u8]) -> io::Result<usize> {
        self.watch.meet(Call::Write)?;
        let most = self.watch.most.get().min(buf.len());
        self.inner.write(&buf[..most])
    }

    fn flush(&mut self) -> io::Result<()> {
        self.inner.flush()
    }
}

impl<F: Seek> Seek for WatchedFile<F> {
    fn seek(&mut self, to: SeekFrom) -> io::Result<u64> {
        self.inner.seek(to)
    }
}

impl<F: FileExt> FileExt for WatchedFile<F> {
    fn read_at(&self, buf: &mut [u8], offset: u64) -> io::Result<usize> {
        self.watch.meet(Call::Read)?;
        let most = self.watch.most.get().min(buf.len());
        self.inner.read_at(&mut buf[..most], offset)
    }

    fn write_at(&self, buf: &[u8], offset: u64) -> io::Result<usize> {
        self.watch.meet(Call::Write)?;
        self.watch.flags.write(self.place);
        let most = self.watch.most.get().min(buf.len());
        self.inner.write_at(&buf[..most], offset)
    }
}

impl<F: OpenFile> OpenFile for WatchedFile<F> {
    fn metadata(&self) -> io::Result<Metadata> {
        self.watch.meet(Call::Look)?;
        Ok(self.watch.tell(self.inner.metadata()?))
    }

    fn set_len(&self, size: u64) -> io::Result<()> {
        self.watch.meet(Call::Resize)?;
        self.watch.flags.write(self.place);
        self.inner.set_len(size)
    }

    fn sync_all(&self) -> io::Result<()> {
        self.watch.meet(Call::SyncFolder)?;
        self.inner.sync_all()?;
        self.watch.flags.sync(self.place);
        Ok(())
    }

    fn sync_data(&self) -> io::Result<()> {
        self.watch.meet(Call::SyncFile)?;
        self.inner.sync_data()?;
        self.watch.flags.sync(self.place);
        Ok(())
    }
}

impl<R: Files> Files for Watched<R> {
    type File = WatchedFile<R::File>;

    type Dir = WatchedNames<R::Dir>;

    fn open_file(&self, how: &OpenOptions, path: &str) -> io::Result<WatchedFile<R::File>> {
        self.watch.meet_opening()?;
        let inner = self.inner.open_file(how, path)?;
        let place = place_at(path);
        if how.asks_create_new() {
            self.watch.flags.make_or_remove(place);
        }
        self.watch.open.set(self.watch.open.get().saturating_add(1));
        Ok(WatchedFile {
            inner,
            place,
            watch: self.watch.clone()?,
        })
    }

    fn open_dir(&self, path: &str) -> io::Result<WatchedNames<R::Dir>> {
        self.watch.meet(Call::List)?;
        let inner = self.inner.open_dir(path)?;
        Ok(WatchedNames {
            inner,
            watch: self.watch.clone()?,
        })
    }

    fn metadata(&self, path: &str) -> io::Result<Metadata> {
        self.watch.meet(Call::Look)?;
        Ok(self.watch.tell(self.inner.metadata(path)?))
    }

    fn symlink_metadata(&self, path: &str) -> io::Result<Metadata> {
        self.watch.meet(Call::Look)?;
        Ok(self.watch.tell(self.inner.symlink_metadata(path)?))
    }

    fn copy(&self, from: &str, to: &str) -> io::Result<u64> {
        self.inner.copy(from, to)
    }

    fn rename(&self, from: &str, to: &str) -> io::Result<()> {
        self.inner.rename(from, to)
    }

    fn remove_file(&self, path: &str) -> io::Result<()> {
        self.watch.meet(Call::Remove)?;
        self.watch.flags.make_or_remove(place_at(path));
        self.inner.remove_file(path)
    }

    fn create_dir(&self, path: &str) -> io::Result<()> {
        self.watch.meet(Call::MakeFolder)?;
        self.inner.create_dir(path)
    }

    fn remove_dir(&self, path: &str) -> io::Result<()> {
        self.inner.remove_dir(path)
    }

    fn remove_dir_all<B: std::alloc::Allocator>(&self, alloc: B, path: &str) -> io::Result<()> {
        self.inner.remove_dir_all(alloc, path)
    }
}
