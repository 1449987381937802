use crate::slow_product;

const H: u128 = 0x66e9_4bd4_ef8a_2c3b_884c_fa59_ca34_2b2e;

// The second is of test case 2 of the mode's publication; the others were computed with polynomials
// as integers.
#[test]
fn products_of_blocks(rt: HostRuntime) {
    for (x, y, product) in [
        (H, 1 << 127, H),
        (
            0x0388_dace_60b6_a392_f328_c2b9_71b2_fe78,
            H,
            0x5e2e_c746_9170_6288_2c85_b068_5353_deb7,
        ),
        (H, H, 0xa569_901b_b4b1_8906_f505_9d24_465c_904d),
        (1 << 126, 1, 0xe1 << 120),
        (1, 1, 0xe608_0000_0000_0000_0000_0000_0000_0003),
        (
            u128::MAX,
            u128::MAX,
            0xf402_aaaa_aaaa_aaaa_aaaa_aaaa_aaaa_aaaa,
        ),
        (0, H, 0),
    ] {
        assert_eq!(rt; slow_product(x, y), product);
    }
}
