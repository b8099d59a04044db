// What is said of an input that is refused: of its sheet, of its first head, of names that are missing, and of its size.
use saying::{Why, say};

// The line.
pub fn say_refused(file: &[u8], why: Why) {
    say(
        file,
        why,
        b"no class sheet: it has under 24 or over 18,616 bytes (refused 1)
no class sheet: its contents are wrong (refused 2)
no class sheet: a child class has an empty name set (refused 3)
no class sheet: the clauses that its states count are not those that it has (refused 4)
no class sheet: a guard record is wrong (refused 5)
no class sheet: the guard of a when clause is broken or too deep (refused 6)
no class sheet: a when clause leads to nothing that there is (refused 7)
no class sheet: an action clause is wrong (refused 8)
no class sheet: a statement is wrong (refused 9)
the first head has # class lines; it has one, which names the class itself
the first head has a commands line; the commands stand in the second
the first head has # states, the sheet # (refused 17)
the second head has # classes, the sheet # (refused 17)
 is a class whose states are not the sheet's (refused 17)
the second head has no name for command # (refused 17)
the second head has no name for child state #, of which a guard speaks (refused 17)
a name is missing (refused 17)
its guards, each written as often as it is used, would have more than 1,024 records (refused 19)
there is no room for the text (refused 15)
the file has more than 262,144 bytes
",
    );
}
