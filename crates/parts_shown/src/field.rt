use hail_field::Symbol;

#[test]
fn a_quotient_times_its_divisor_is_the_dividend(rt: HostRuntime) {
    let (dividend, divisor) = (Symbol(15), Symbol(3));
    let inverse = divisor.inv().expect(&rt, "only 0 has none");
    let quotient = dividend.mul(inverse);
    assert!(rt; quotient == Symbol(5) && quotient.mul(divisor) == dividend);
}
