// Prints for every file of a recorded list a line with `=` and its number, and then what the program `book` prints (printout: `print_list`, `put_book`).

#![tactic(auto)]

fn main() {
    printout::list::print_list(printout::book::put_book);
}
