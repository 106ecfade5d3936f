// `chassis_listing` on fewer than 8 bytes.
#![tactic(auto)]

fn main() {
    listing_io::list_input();
}
