//! The laws, called once.

use cert_laws::{certified_is_so, examples_come_out, faults_are_exact, needs_bar_prices};
use std::test::Fail;

#[test]
fn laws_can_be_called(_rt: HostRuntime) -> Result<(), Fail> {
    certified_is_so();
    needs_bar_prices();
    faults_are_exact();
    examples_come_out();
    Ok(())
}
