// The folders of a home's providers, whose names and files reach the medium at the next barrier.
ghost use Rattle.std.specs.Prelude.{◌≡◌, None, OnOk};

use crate::block_name::{put_file, put_folder};
use file_parts::unsynced::{OPEN_FILES, Unsynced};
use file_parts::written::Written;
use hail_field::Memory;
use stack_adapters::bring;
use std::alloc::{AllocError, Global};
use std::fs::{self, Files, OpenFile};
use std::io::{self, ErrorKind};
use std::os::unix::fs::MetadataExt;

/// The bytes of a file's path behind the home.
const FILE_BYTES: usize = 40;

/// The folders of the sixteen providers of a home.
#[derive(Drop)]
pub struct ProviderFolders<R: Files + Clone + Drop> {
    rt: R,
    home: String,
    path: String,
    unsynced: Unsynced<R::File>,
    /// The first provider with something that was not on the medium at the last look; none where there was
    /// none.
    pub left: Option<u8>,
}

impl<R: Files + Clone + Drop> ProviderFolders<R> {
    /// Opens nothing, and makes room for the path of a file, so that no later call has to.
    pub fn new(
        rt: &R,
        alloc: Global,
        home: &str,
        unsynced: &Unsynced<R::File>,
    ) -> Result<ProviderFolders<R>, Memory> {
        let mut path = String::from_str(alloc, home)?;
        path.reserve(FILE_BYTES)?;
        Ok(ProviderFolders {
            rt: rt.clone()?,
            home: String::from_str(alloc, home)?,
            path,
            unsynced: unsynced.share()?,
            left: None,
        })
    }

    /// Writes the path of a provider's folder.
    fn put_path(&mut self, provider: u8) -> Result<(), AllocError> {
        put_folder(&mut self.path, &self.home, provider)?;
        self.path.push('/')
    }

    /// Opens the folder at the path. One that is gone is an error, and so is one on another device than at
    /// its first store, since what was mounted there is gone.
    fn open_path(&self, provider: u8) -> io::Result<R::File> {
        let folder = fs::open(&self.rt, &self.path)?;
        if Some(folder.metadata()?.dev()) != self.unsynced.device(provider) {
            return Err(ErrorKind::NotFound.into());
        }
        Ok(folder)
    }

    /// Brings a file that stores wrote to to the medium.
    fn bring(&mut self, provider: u8, file: &mut Written<R::File>) -> io::Result<()> {
        put_file(&mut self.path, &self.home, provider, file.object)?;
        bring(&self.rt, &self.path, file)
    }

    /// Brings to the medium what stores wrote to the file at one of a provider's eight places.
    fn sync_file(&mut self, provider: u8, at: usize) -> io::Result<()> {
        let Some(mut file) = self.unsynced.take(provider, at) else {
            return Ok(());
        };
        let synced = if file.is_unsynced {
            self.bring(provider, &mut file)
        } else {
            Ok(())
        };
        self.unsynced.put(provider, at, file);
        synced
    }

    /// Brings to the medium what stores wrote to the files of a provider.
    fn sync_files(&mut self, provider: u8) -> io::Result<()> {
        for at in 0..OPEN_FILES {
            self.sync_file(provider, at)?;
        }
        Ok(())
    }

    /// Syncs a provider's folder, if it has names that are not on the medium.
    fn sync_names(&mut self, provider: u8) -> io::Result<()> {
        if !self.unsynced.is_unnamed(provider) {
            return Ok(());
        }
        self.put_path(provider)?;
        self.open_path(provider)?.sync_all()?;
        self.unsynced.unmark(provider);
        Ok(())
    }

    /// Brings to the medium what a provider's folder has, unless a sync of it failed.
    fn sync_one(&mut self, provider: u8) -> io::Result<()> {
        self.unsynced.is_sure(provider)?;
        self.sync_files(provider)?;
        self.sync_names(provider)
    }

    /// Syncs the providers' folders that are marked, and the files in them that are. Where one fails the others
    /// are left, and it fails from then on.
    fn try_sync(&mut self) -> io::Result<()> {
        for provider in 0..16u8 {
            if self.unsynced.is_marked(provider) {
                let synced = self.sync_one(provider);
                if synced.is_err() {
                    self.unsynced.fail(provider);
                    return synced;
                }
            }
        }
        Ok(())
    }

    /// Brings to the medium all blocks that were stored, and their names. It ends well only where nothing is
    /// marked any more; else `left` is a provider that is.
    pub fn sync(&mut self) -> io::Result<()>
        ensures none_left { OnOk result (self.new.left ≡ None) }
    {
        let synced = self.try_sync();
        self.left = self.unsynced.first_marked();
        if self.left.is_some() && synced.is_ok() {
            return Err(ErrorKind::Other.into());
        }
        synced
    }
}
