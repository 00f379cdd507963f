// Prints the merge book of the sweep of a file on standard input: one line an entry, its numbers parted by one space, and a last line with the number of
// entries and the sums of weights and of gates moved (printout: `print_input`, `put_book`).

#![tactic(auto)]

fn main() {
    printout::input::print_input(printout::book::put_book);
}
