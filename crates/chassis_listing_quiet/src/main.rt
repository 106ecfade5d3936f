// `chassis_listing` on three cards, of which the last has taken a clear and not yet the count that it cancels (SPECIFICATION 9).
#![tactic(auto)]

fn main() {
    listing_io::list_input();
}
