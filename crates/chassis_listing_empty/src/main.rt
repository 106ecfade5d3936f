// `chassis_listing` on an empty list of steps, for one card and one counter.
#![tactic(auto)]

fn main() {
    listing_io::list_input();
}
