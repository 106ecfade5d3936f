// Writes the listing of the run that standard input gives (SPECIFICATION 9).
#![tactic(auto)]

fn main() {
    listing_io::list_input();
}
