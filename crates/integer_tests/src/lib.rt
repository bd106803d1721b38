// The operators run on their worked examples.
#![tactic(auto)]

#[cfg(test)]
mod tests {
    use fault::Trap;
    use integer::*;

    const DIVISOR: Result<i32, Trap> = Err(Trap::Divisor);

    const BEYOND: Result<i32, Trap> = Err(Trap::Beyond);

    const MAX: i32 = 2_147_483_647;

    // x and y with the answers of + - * / div mod.
    #[test]
    fn answers(rt: HostRuntime) {
        for (x, y, [sum, difference, product, cut, quotient, remainder]) in [
            (-15, 4, [Ok(-11), Ok(-19), Ok(-60), Ok(-3), Ok(-4), Ok(1)]),
            (15, 4, [Ok(19), Ok(11), Ok(60), Ok(3), Ok(3), Ok(3)]),
            (15, -4, [Ok(11), Ok(19), Ok(-60), Ok(-3), DIVISOR, DIVISOR]),
            (-15, -4, [Ok(-19), Ok(-11), Ok(60), Ok(3), DIVISOR, DIVISOR]),
            (7, 0, [Ok(7), Ok(7), Ok(0), DIVISOR, DIVISOR, DIVISOR]),
            (
                MAX,
                1,
                [BEYOND, Ok(MAX - 1), Ok(MAX), Ok(MAX), Ok(MAX), Ok(0)],
            ),
            (
                -MAX,
                1,
                [Ok(1 - MAX), BEYOND, Ok(-MAX), Ok(-MAX), Ok(-MAX), Ok(0)],
            ),
            (-MAX, MAX, [Ok(0), BEYOND, BEYOND, Ok(-1), Ok(-1), Ok(0)]),
            (
                -1,
                MAX,
                [Ok(MAX - 1), BEYOND, Ok(-MAX), Ok(0), Ok(-1), Ok(MAX - 1)],
            ),
            (
                i32::MIN,
                1,
                [Ok(-MAX), BEYOND, BEYOND, BEYOND, BEYOND, Ok(0)],
            ),
            (
                i32::MIN,
                -1,
                [BEYOND, Ok(-MAX), BEYOND, BEYOND, DIVISOR, DIVISOR],
            ),
        ] {
            assert_eq!(rt; add(x, y), sum);
            assert_eq!(rt; subtract(x, y), difference);
            assert_eq!(rt; multiply(x, y), product);
            assert_eq!(rt; divide(x, y), cut);
            assert_eq!(rt; div(x, y), quotient);
            assert_eq!(rt; modulo(x, y), remainder);
        }
    }

    #[test]
    fn signs(rt: HostRuntime) {
        for (x, negated) in [
            (0, Ok(0)),
            (15, Ok(-15)),
            (MAX, Ok(-MAX)),
            (-MAX, Ok(MAX)),
            (i32::MIN, BEYOND),
        ] {
            assert_eq!(rt; negate(x), negated);
        }
    }

    #[test]
    fn pairs(rt: HostRuntime) {
        assert_eq!(rt; quotient_remainder(-15, 4), Ok((-4, 1)));
        assert_eq!(rt; quotient_remainder(15, 4), Ok((3, 3)));
        assert_eq!(rt; quotient_remainder(i32::MIN, 1), Ok((i32::MIN, 0)));
        assert_eq!(rt; quotient_remainder(i32::MIN, MAX), Ok((-2, MAX - 1)));
        assert_eq!(rt; quotient_remainder(15, 0), Err(Trap::Divisor));
    }
}
