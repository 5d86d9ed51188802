//! A folder with a head, and next to it the folders of pieces that it and earlier heads name.
//!
//! The pieces are written to a new folder. When all are there, it gets the name that the head has
//! for it, then the head is replaced, and then folders of earlier heads are removed. One process
//! does this at a time. So whoever reads the head finds all of its pieces, at each moment.
//!
//! The file `folders.txt` has the folders that may have to be removed, those of the last heads in
//! their order. A folder is written there before it gets its name, so that none is forgotten if the
//! process is killed. Where it would have the folder of the head alone, the file isn't there.

use crate::files::write_file;
use crate::heads::{kept_of, removed_of};
use crate::names::{folder_in, is_folder_name};
use crate::temporary::{Kind, Temporary, is_taken, make_temporary};
use std::fs;
use std::fs::File;
use std::io::{self, ErrorKind};

/// A file or a folder that failed, and how.
#[derive(Drop)]
pub struct Fault {
    pub file: String,
    pub error: io::Error,
}

/// What is published: the folder of the site, the new folder with the pieces and the name that it
/// gets, the text of the head, and of how many heads the folders are kept.
#[derive(Clone, Copy)]
pub struct Site<'a> {
    pub folder: &'a str,
    pub pieces: &'a str,
    pub name: &'a str,
    pub head: &'a str,
    pub keep: usize,
}

/// Makes a new folder for pieces in the folder of a site, which is made where it isn't there.
pub fn new_pieces(rt: &HostRuntime, folder: &str) -> io::Result<Temporary> {
    fs::create_dir_all(rt, folder)?;
    let path = format!(in rt.alloc(); "{folder}/pieces")?;
    make_temporary(rt, path.as_str(), Kind::Folder)
}

/// Removes a folder of pieces after a fault. Where this fails, too, the first fault is reported.
pub fn discard(rt: &HostRuntime, folder: &str) {
    let _ = fs::remove_dir_all(rt, folder);
}

/// Whether another process publishes in this folder at this moment, so that `publish` waits for it.
pub fn is_busy(rt: &HostRuntime, folder: &str) -> bool {
    match File::open(rt, folder) {
        Ok(file) => is_taken(&file),
        Err(_) => false,
    }
}

/// Gives the pieces their name, replaces the head, and removes the folders of earlier heads.
/// Returns what could not be removed: the next call tries again. After a fault the earlier head and
/// its pieces are as they were, and the new folder may be left.
pub fn publish(rt: &HostRuntime, site: &Site<'_>) -> io::Result<Result<Vec<Fault>, Fault>> {
    // Others wait until this file is dropped. A file system without locks has none.
    let lock = File::open(rt, site.folder);
    if let Ok(file) = &lock {
        let _ = file.lock();
    }
    match places_of(rt, site) {
        Ok(places) => Ok(publish_at(rt, site, places)),
        Err(error) => {
            let file = String::from_str(rt.alloc(), site.folder)?;
            Ok(Err(Fault { file, error }))
        }
    }
}

/// Where all goes. All of it is made before anything is changed.
#[derive(Drop)]
struct Places {
    pieces: String,
    head: String,
    record: String,
    has_record: bool,
    plan: Plan,
}

/// The folders that are removed, and what is recorded until then and after that.
#[derive(Drop)]
struct Plan {
    removed: Vec<String>,
    ahead: String,
    after: Option<String>,
    /// What can't be removed.
    faults: Vec<Fault>,
}

fn places_of(rt: &HostRuntime, site: &Site<'_>) -> io::Result<Places> {
    let (alloc, folder, name) = (rt.alloc(), site.folder, site.name);
    let head = format!(in alloc; "{folder}/search.json")?;
    let record = format!(in alloc; "{folder}/folders.txt")?;
    let old = text_of(rt, head.as_str())?;
    let before = text_of(rt, record.as_str())?;
    Ok(Places {
        pieces: format!(in alloc; "{folder}/{name}")?,
        plan: plan_of(rt, site, text_or_none(&old), text_or_none(&before))?,
        head,
        has_record: before.is_some(),
        record,
    })
}

fn text_or_none(text: &Option<String>) -> &str {
    match text {
        Some(text) => text.as_str(),
        None => "",
    }
}

/// What is removed, by the name of the new folder, the text of the head that is there, and what is
/// recorded.
fn plan_of<'a>(
    rt: &HostRuntime,
    site: &Site<'a>,
    head: &'a str,
    record: &'a str,
) -> io::Result<Plan> {
    let (alloc, folder, name) = (rt.alloc(), site.folder, site.name);
    let (recorded, current) = (folders_in(rt, record)?, folder_in(head));
    let kept = kept_of(alloc, &recorded, current, name, site.keep)?;
    let removed = removed_of(alloc, &recorded, current, &kept)?;
    let is_alone = kept.iter().all(|it| *it == name);
    Ok(Plan {
        ahead: lines_of(rt, &removed, &kept)?,
        after: if is_alone {
            None
        } else {
            Some(lines_of(rt, &Vec::new(alloc), &kept)?)
        },
        faults: Vec::with_capacity(alloc, removed.len().saturating_add(1))?,
        removed: paths_of(rt, folder, &removed)?,
    })
}

/// The text of a plain file, where there is one that is text.
fn text_of(rt: &HostRuntime, path: &str) -> io::Result<Option<String>> {
    match fs::metadata(rt, path) {
        Ok(about) if about.is_file() => {}
        _ => return Ok(None),
    }
    match fs::read_to_string(rt, path) {
        Ok(text) => Ok(Some(text)),
        Err(e) if e.kind() == ErrorKind::OutOfMemory => Err(e),
        Err(_) => Ok(None),
    }
}

/// The names of folders of pieces that a text has, one on each line.
fn folders_in<'a>(rt: &HostRuntime, text: &'a str) -> io::Result<Vec<&'a str>> {
    let mut names = Vec::new(rt.alloc());
    for line in text.lines() {
        if is_folder_name(line) {
            names.push(line)?;
        }
    }
    Ok(names)
}

/// A line for each name, first of these and then of those.
fn lines_of(rt: &HostRuntime, these: &[&str], those: &[&str]) -> io::Result<String> {
    let mut text = String::new(rt.alloc());
    for name in these {
        text.push_str(*name)?;
        text.push('\n')?;
    }
    for name in those {
        text.push_str(*name)?;
        text.push('\n')?;
    }
    Ok(text)
}

fn paths_of(rt: &HostRuntime, folder: &str, names: &[&str]) -> io::Result<Vec<String>> {
    let mut paths = Vec::with_capacity(rt.alloc(), names.len())?;
    for name in names {
        paths.push(format!(in rt.alloc(); "{folder}/{name}")?)?;
    }
    Ok(paths)
}

/// Does this at these places.
fn publish_at(rt: &HostRuntime, site: &Site<'_>, places: Places) -> Result<Vec<Fault>, Fault> {
    let record = places.record.as_str();
    if let Err(error) = write_file(rt, record, places.plan.ahead.as_str()) {
        let file = places.record;
        return Err(Fault { file, error });
    }
    let is_new = match give_name(rt, site.pieces, places.pieces.as_str()) {
        Ok(is_new) => is_new,
        Err(error) => {
            unrecord(rt, &places);
            let file = places.pieces;
            return Err(Fault { file, error });
        }
    };
    if let Err(error) = write_file(rt, places.head.as_str(), site.head) {
        if is_new {
            discard(rt, places.pieces.as_str());
        }
        unrecord(rt, &places);
        let file = places.head;
        return Err(Fault { file, error });
    }
    Ok(remove_earlier(rt, places.record, places.plan))
}

/// Takes back what was recorded, where nothing was recorded before. What is recorded too much does
/// no harm.
fn unrecord(rt: &HostRuntime, places: &Places) {
    if !places.has_record {
        let _ = fs::remove_file(rt, places.record.as_str());
    }
}

/// Gives the new folder its name. Where there is a folder of this name, its pieces are made those of
/// the new one; then the answer is `false`.
fn give_name(rt: &HostRuntime, pieces: &str, name: &str) -> io::Result<bool> {
    if !is_folder(rt, name) {
        fs::rename(rt, pieces, name)?;
        return Ok(true);
    }
    put_right(rt, pieces, name)?;
    discard(rt, pieces);
    Ok(false)
}

fn is_folder(rt: &HostRuntime, path: &str) -> bool {
    match fs::symlink_metadata(rt, path) {
        Ok(about) => about.is_dir(),
        Err(_) => false,
    }
}

/// Moves each file that is missing or another one in a folder there. Other files stay.
fn put_right(rt: &HostRuntime, from: &str, to: &str) -> io::Result<()> {
    for entry in fs::read_dir(rt, from)? {
        let entry = entry?;
        let (file, name) = (entry.path(), entry.file_name());
        let there = format!(in rt.alloc(); "{to}/{name}")?;
        if !is_same(rt, file.as_str(), there.as_str())? {
            fs::rename(rt, file.as_str(), there.as_str())?;
        }
    }
    Ok(())
}

/// Whether a file has the bytes of this one.
fn is_same(rt: &HostRuntime, file: &str, other: &str) -> io::Result<bool> {
    let about = fs::metadata(rt, file)?;
    match fs::metadata(rt, other) {
        Ok(it) if it.is_file() && it.len() == about.len() => {}
        _ => return Ok(false),
    }
    Ok(fs::read(rt, file)? == fs::read(rt, other)?)
}

/// Removes the folders of earlier heads. Returns what could not be removed.
fn remove_earlier(rt: &HostRuntime, record: String, plan: Plan) -> Vec<Fault> {
    let mut faults = plan.faults;
    for file in plan.removed {
        if is_folder(rt, file.as_str()) {
            if let Err(error) = fs::remove_dir_all(rt, file.as_str()) {
                let _ = faults.push(Fault { file, error });
            }
        }
    }
    if faults.is_empty() {
        let done = match &plan.after {
            Some(text) => write_file(rt, record.as_str(), text.as_str()),
            None => fs::remove_file(rt, record.as_str()),
        };
        if let Err(error) = done {
            let file = record;
            let _ = faults.push(Fault { file, error });
        }
    }
    faults
}
