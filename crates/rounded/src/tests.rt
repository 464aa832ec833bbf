// Slices with values that are not finite, which no settling gives, and with -0.0: all of them count as 0.
use crate::Rounded;
use score::{first_greatest, top_candidate};

fn slice(values: [f32; 4]) -> [Rounded; 4] {
    values.map(|value| Rounded { value })
}

#[test]
fn greatest(rt: HostRuntime) {
    let nan = f32::NAN;
    let inf = f32::INFINITY;
    assert_eq!(rt; first_greatest(&slice([nan, inf, -inf, -0.0])), Some(0));
    assert_eq!(rt; first_greatest(&slice([-1.0, -inf, nan, inf])), Some(1));
    assert_eq!(rt; first_greatest(&slice([inf, -1.0, 1.0, nan])), Some(2));
    assert_eq!(rt; first_greatest(&slice([-0.0, 0.0, inf, nan])), Some(0));
}

#[test]
fn top(rt: HostRuntime) {
    let nan = f32::NAN;
    let inf = f32::INFINITY;
    assert_eq!(rt; top_candidate(&slice([inf, nan, -inf, 0.0])), None);
    assert_eq!(rt;
        top_candidate(&slice([inf, nan, f32::MIN_POSITIVE, 0.0])),
        Some(2)
    );
}
