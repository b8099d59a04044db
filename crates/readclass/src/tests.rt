// `say_fault` of `saying`, as a caller in another crate has it. What it says stands on standard error, in all of which `expected` is looked
// for once a test has ended by the handle.
use classfile::parts::Fault;
use saying::heads::say_fault;

// What is wrong with a line of a head: the file, the fault, and where the word that shows it starts and ends.
type Wrong<'a> = (&'a [u8], Fault, usize, usize);

// Says each, with a semicolon behind it.
fn say_each(faults: &[Wrong]) {
    for (file, fault, start, end) in faults {
        say_fault(file, *fault, *start, *end);
        io::write_all(2, b";");
    }
}

#[test]
#[should_panic(expected = " begins no line of a head; names, commands and class do, and an empty line ends it; begins a line for the second time; stands twice; is one too many: there are at most 32 names, 64 commands and 8 classes; is not among the names; the names line stands before the class lines;a class line without a name;a class without states;the file ends before the empty line that ends the head;")]
fn says_what_is_wrong_with_a_line(rt: HostRuntime) {
    let file = b"names P".as_slice();
    say_each(&[
        (file, Fault::UnknownLine, 6, 7),
        (file, Fault::LineTwice, 6, 7),
        (file, Fault::NameTwice, 6, 7),
        (file, Fault::TooMany, 6, 7),
        (file, Fault::NotListed, 6, 7),
        (file, Fault::NoClass, 6, 7),
        (file, Fault::NoStates, 6, 7),
        (file, Fault::NoEmptyLine, 6, 7),
    ]);
    panic!(rt; "said");
}

// Any places are taken: the end may lie behind the file's, or before the start.
#[test]
#[should_panic(expected = " is no name: a name has letters, digits and underscores only; is no name: a name has at most 31 characters; is no name: it is a word of the class text; is no name: a name has at most 31 characters; is no name: it is a word of the class text;")]
fn says_why_a_word_is_no_name(rt: HostRuntime) {
    let long = b"names A2345678901234567890123456789012".as_slice();
    let far = b"commands GO STOP RESET RECOVER when".as_slice();
    say_each(&[
        (b"names A-B".as_slice(), Fault::NoName, 6, 9),
        (long, Fault::NoName, 6, 38),
        (far, Fault::NoName, 31, 35),
        (b"names A".as_slice(), Fault::NoName, 6, 90),
        (b"names A-B".as_slice(), Fault::NoName, 9, 6),
    ]);
    panic!(rt; "said");
}
