// Counts, which stay at their limit.

pub fn add(count: &mut usize, n: usize) {
    *count = count.saturating_add(n);
}

/// Counted as wanted, or, where it isn't so, otherwise.
pub fn expect(ok: bool, wanted: &mut usize, otherwise: &mut usize) {
    add(if ok { wanted } else { otherwise }, 1);
}
