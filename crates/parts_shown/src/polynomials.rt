use hail_field::Symbol;
use hail_gao::decode_gao;
use hail_poly::Work;

#[test]
fn two_of_six_values_may_be_wrong(rt: HostRuntime) {
    let mut work = Work::new(rt.alloc(), 6).expect(&rt, "memory");
    let points = [
        Symbol(0),
        Symbol(1),
        Symbol(2),
        Symbol(3),
        Symbol(4),
        Symbol(5),
    ];
    let values = [
        Symbol(9),
        Symbol(5),
        Symbol(10),
        Symbol(15),
        Symbol(2),
        Symbol(9),
    ];
    let found = decode_gao(&points, &values, 2, 2, &mut work);
    assert!(rt; found.is_some() && work.rest() == [Symbol(0), Symbol(5)].as_slice());
}
