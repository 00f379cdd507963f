// Prints for every file of a recorded list a line with `=` and its number, and then what the program `unfold` prints (printout: `print_list`, `put_file`).

#![tactic(auto)]

fn main() {
    printout::list::print_list(printout::unfold::put_file);
}
