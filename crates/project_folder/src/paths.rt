// The paths of what lies in a folder, in room that is taken once.
use itoa::Buffer;
use pcm_base::Failed;
use std::alloc::{AllocError, Global};

/// How many bytes a name in a folder has at most. Systems allow no more.
const LONGEST_NAME: usize = 255;

/// A folder, as a text that ends with a slash, and room for one path in it.
#[derive(Drop)]
pub(crate) struct Paths {
    folder: String,
    path: String,
}

// The folder as a text that ends with a slash. An empty name is the current folder.
pub(crate) fn with_slash(alloc: Global, folder: &str) -> Result<String, AllocError> {
    let mut text = String::from_str(alloc, if folder.is_empty() { "." } else { folder })?;
    text.push('/')?;
    Ok(text)
}

impl Paths {
    // The folder `inner` of the folder `outer`.
    pub(crate) fn new(alloc: Global, outer: &str, inner: &str) -> Result<Paths, AllocError> {
        let mut folder = with_slash(alloc, outer)?;
        folder.push_str(inner)?;
        folder.push('/')?;
        let mut path = String::from_str(alloc, folder.as_str())?;
        path.reserve(LONGEST_NAME)?;
        Ok(Paths { folder, path })
    }

    // The folder itself.
    pub(crate) fn folder(&self) -> &str {
        self.folder.as_str()
    }

    // The path of what has this name in the folder. A name that is too long is refused, so none takes memory.
    pub(crate) fn named(&mut self, name: &str) -> Result<&str, Failed> {
        self.path.clear();
        if name.len() > LONGEST_NAME {
            return Err(Failed);
        }
        match self.path.push_str(self.folder.as_str()) {
            Ok(()) => {}
            Err(_) => return Err(Failed),
        }
        match self.path.push_str(name) {
            Ok(()) => Ok(self.path.as_str()),
            Err(_) => Err(Failed),
        }
    }

    // The path of the file with this number, in decimal.
    pub(crate) fn numbered(&mut self, file: u64) -> Result<&str, Failed> {
        let mut digits = Buffer::new();
        self.named(digits.format(file))
    }

    // Whether the path that was made last is the one with this name.
    pub(crate) fn is_at(&self, name: &str) -> bool {
        match self.path.as_str().strip_prefix(self.folder.as_str()) {
            Some(rest) => rest == name,
            None => false,
        }
    }
}
