ghost use Rattle.std.specs.Prelude.{◌≡◌};
ghost use Rattle.vault_table.specs.Orders.{order_of};

use std::cmp::Ordering;

/// How two names stand in byte order; a name that begins another comes before it.
pub fn compare(a: &[u8], b: &[u8]) -> Ordering
    ensures { result ≡ order_of a.now b.now }
{
    for i in 0..a.len().min(b.len()) {
        if a[i] < b[i] {
            return Ordering::Less;
        }
        if a[i] > b[i] {
            return Ordering::Greater;
        }
    }
    if a.len() < b.len() {
        Ordering::Less
    } else if a.len() > b.len() {
        Ordering::Greater
    } else {
        Ordering::Equal
    }
}
