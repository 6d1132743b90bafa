ghost use Rattle.std.specs.Option.{option_map};
ghost use Rattle.std.specs.Prelude.{◌≡◌, ◌==◌, ◌≤◌, map, not, is_some, IsTrue, MatchResult, vec_capacity, if◌then◌else◌};
ghost use Rattle.record_defs.specs.Table.{are_ordered, find_file, with_file, without_file};
ghost use Rattle.record_defs.specs.Acceptance.{is_file_id};
ghost use Rattle.record_defs.specs.Records.{most_files};
ghost use Rattle.std.specs.List.{list_any};
ghost use Rattle.vault_table.specs.declared.entry.Entry.{Entry as EntryValue};
ghost use Rattle.vault_table.specs.Orders.{order_of, IsHere, IsBetween};
ghost use Rattle.vault_table.specs.Values.{file_of_entry, is_full_without};

use crate::entry::Entry;
use crate::names::compare;
use record_codec::Name;
use record_defs::MOST_FILES;
use std::cmp::Ordering;

/// How a file's name stands to a name in byte order.
fn order(file: &Entry, name: &Name) -> Ordering
    ensures { result ≡ order_of file.now.name name.now }
{
    compare(file.name.as_bytes(), name.as_bytes())
}

/// The place of a name among files in byte order of their names, or else the place at which it would stand.
pub fn place_of(files: &[Entry], name: &Name) -> Result<usize, usize>
    requires { IsTrue (are_ordered (map file_of_entry files.now)) }
    ensures { MatchResult result (λ i. IsHere (map file_of_entry files.now) name.now i)
        (λ i. IsBetween (map file_of_entry files.now) name.now i) }
{
    let mut low = 0;
    let mut high = files.len();
    while low < high {
        let middle = low + (high - low) / 2;
        match order(&files[middle], name) {
            Ordering::Less => low = middle + 1,
            Ordering::Equal => return Ok(middle),
            Ordering::Greater => high = middle,
        }
    }
    Err(low)
}

/// The file of a name.
pub fn find(files: &[Entry], name: &Name) -> Option<Entry>
    requires { IsTrue (are_ordered (map file_of_entry files.now)) }
    ensures { option_map file_of_entry result ≡ find_file (map file_of_entry files.now) name.now }
{
    match place_of(files, name) {
        Ok(place) => Some(files[place]),
        Err(_) => None,
    }
}

/// Puts a file in the place of an older one of its name, or beside the others; false where there is no room
/// for it.
pub fn put_file(files: &mut Vec<Entry>, file: Entry) -> bool
    requires ordered { IsTrue (are_ordered (map file_of_entry files.old.items)) }
    requires room { most_files ≤ vec_capacity files.old }
    ensures fits { result ≡ not (is_full_without (map file_of_entry files.old.items) file.name) }
    ensures files { map file_of_entry files.new.items
        ≡ (if result then with_file (without_file (map file_of_entry files.old.items) file.name)
        (file_of_entry file) else map file_of_entry files.old.items) }
    ensures room { most_files ≤ vec_capacity files.new }
{
    match place_of(files, &file.name) {
        Ok(place) => {
            files[place] = file;
            true
        }
        Err(place) => files.len() < MOST_FILES && files.insert(place, file).is_ok(),
    }
}

/// Whether an id is that of one of these entries.
fn lists(files: &[Entry], id: u64) -> bool
    ensures { result ≡ list_any (λ (e : EntryValue). e.id == id) files.now }
{
    files.iter().any(|file| file.id == id)
}

/// Whether an id is that of one of these files.
pub fn has_id(files: &[Entry], id: u64) -> bool
    ensures { result ≡ is_file_id (map file_of_entry files.now) id }
{
    lists(files, id)
}

/// Takes the file of a name out; false where there is none.
pub fn drop_file(files: &mut Vec<Entry>, name: &Name) -> bool
    requires ordered { IsTrue (are_ordered (map file_of_entry files.old.items)) }
    requires room { most_files ≤ vec_capacity files.old }
    ensures found { result ≡ is_some (find_file (map file_of_entry files.old.items) name.now) }
    ensures files { map file_of_entry files.new.items
        ≡ (if result then without_file (map file_of_entry files.old.items) name.now
        else map file_of_entry files.old.items) }
    ensures room { most_files ≤ vec_capacity files.new }
{
    match place_of(files, name) {
        Ok(place) => {
            files.remove(place);
            true
        }
        Err(_) => false,
    }
}
