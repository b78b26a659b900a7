//! A test that calls the law of `toml_size`, which does nothing when it runs.

use toml_size::documents_are_no_longer;

#[test]
fn law() {
    documents_are_no_longer();
}
