use crate::given::*;
use hail_field::Symbol;
use hail_syndrome::syndromes;

/// Whether the four syndromes of six values at the points 0 to 5 have these numbers.
fn has_syndromes(values: [u128; 6], numbers: &[u128]) -> bool {
    let points = [
        Symbol(0),
        Symbol(1),
        Symbol(2),
        Symbol(3),
        Symbol(4),
        Symbol(5),
    ];
    let mut out = [Symbol(99); 4];
    syndromes(&points, &six(values), 2, &mut out);
    are_numbers(&out, numbers)
}

#[test]
fn syndromes_are_zero_on_a_line_and_not_beside_it(rt: HostRuntime) {
    assert!(rt;
        has_syndromes([0, 5, 10, 15, 2, 7], &[0, 0, 0, 0])
            && has_syndromes([0, 5, 10, 15, 0, 0], &[5, 5, 15, 5])
    );
}
