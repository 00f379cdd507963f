// Unfolds the sweep of a file on standard input: one line a ray, counts parted by one space (printout: `print_input`, `put_file`).

#![tactic(auto)]

fn main() {
    printout::input::print_input(printout::unfold::put_file);
}
