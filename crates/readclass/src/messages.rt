// What is said of a class file that is refused, behind the word that shows it: the limits of `sizing`, the causes of `blame`, and what
// `reasons` adds.
use saying::{Why, say};

// The line.
pub fn say_refused(file: &[u8], why: Why) {
    say(
        file,
        why,
        b"more than 32 states (refused 18)
more than 256 when clauses (refused 18)
more than 256 action clauses (refused 18)
more than 1024 statements (refused 18)
more than 1024 guard records (refused 18)
more than 8 ifs inside one another (refused 18)
more than 16 operators on one path of this guard (refused 18)
 is no child's state: the names line of the head lacks it (refused 17)
 is no child class: no class line of the head has it (refused 17)
 is no command: the commands line of the head lacks it (refused 17)
 is no state of this class (refused 17)
 is a state of this class already (refused 17)
 has an action clause in this state already (refused 17)
 has no action clause in this state (refused 17)
the class text is cut short: it ends here (refused 16)
 cannot stand here (refused 16)
 cannot stand here: a name has at most 31 characters (refused 16)
the file has more than 1,310,720 bytes
a name is not known or stands twice (refused 17)
the class text is too large (refused 18)
there is no room for the sheet (refused 15)
",
    );
}
