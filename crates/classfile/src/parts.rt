// The parts of a head: what a word becomes in the line that it stands in.
ghost use Rattle.std.specs.Prelude.{◌≡◌, ◌≤◌, length};
ghost use Rattle.std.proofs.lemmas.List.Edits.{sets};
ghost use Rattle.classfile.specs.Heads.{judge_name, add_state, class_record};
ghost use Rattle.classfile.specs.Reads.{Added};

use kinds::is_name;
use laying::{put_name, put_number};
use lists::number_in;
use model::ChildName;
use records::sets::has_name;

// What can be wrong with a line of the head.
#[derive(Clone, Copy)]
pub enum Fault {
    UnknownLine,
    LineTwice,
    NoName,
    NameTwice,
    TooMany,
    NotListed,
    NoClass,
    NoStates,
    NoEmptyLine,
}

// A word can be the next name of a list, in records of that many bytes, where so many bytes are left for it.
pub fn judge_name(list: &[u8], size: usize, left: usize, word: &[u8]) -> Result<(), Fault>
    requires { 32 ≤ size }
    ensures { result ≡ judge_name size left list.now word.now }
{
    if !is_name(word) {
        return Err(Fault::NoName);
    }
    if number_in(list, size, word).is_some() {
        return Err(Fault::NameTwice);
    }
    if left < size {
        return Err(Fault::TooMany);
    }
    Ok(())
}

// A word behind the names of a list, of which so many bytes are used.
pub fn add_name(list: &mut [u8], used: usize, word: &[u8]) -> Result<(), Fault>
    requires { used ≤ length list.old }
    ensures { Added list.old used word.now result list.new }
{
    let left = list.len() - used;
    judge_name(&list[..used], 32, left, word)?;
    put_name(list, used, word);
    Ok(())
}

// A state of a class: its number among the names goes into the class's set.
pub fn add_state(names: &[u8], set: u32, word: &[u8]) -> Result<u32, Fault>
    ensures { result ≡ add_state names.now set word.now }
{
    let Some(n) = number_in(names, 32, word) else {
        return Err(Fault::NotListed);
    };
    if 31 < n {
        return Err(Fault::TooMany);
    }
    if has_name(set, ChildName(n as u8)) {
        Err(Fault::NameTwice)
    } else {
        Ok(set | (1 << n))
    }
}

// A class's record behind those of a list: its name's, and its set.
pub fn add_class(list: &mut [u8], used: usize, name: &[u8], set: u32)
    ensures { list.new ≡ sets list.old used (class_record name.now set) }
{
    let next = put_name(list, used, name);
    put_number(list, next, set);
}
