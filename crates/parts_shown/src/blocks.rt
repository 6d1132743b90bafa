use code_points::find_profile;
use hail_field::Symbol;
use hail_poly::Work;
use server_code::AnyCode;

#[test]
fn a_block_bears_two_wrong_symbols(rt: HostRuntime) {
    let mut work = Work::new(rt.alloc(), 128).expect(&rt, "memory");
    let profile = find_profile(0).expect(&rt, "a profile");
    let code = AnyCode::new(rt.alloc(), profile).expect(&rt, "memory");
    let mut block = [Symbol::ZERO; 6];
    code.encode_into(&[Symbol(0), Symbol(5)], &mut block);
    let whole = block;
    block[0] = Symbol(99);
    block[4] = Symbol(98);
    let changed = code.decode_in(&mut block, &mut work);
    assert!(rt; changed == Some(2) && block == whole);
}
