// The depths of an empty screen: farther than anything that is drawn.
ghost use Rattle.std.specs.Prelude.{◌≡◌, length};
ghost use Rattle.screen.specs.Depths.{far_ints, far_floats};

pub fn refill(depth: &mut [i32], depth_f32: &mut [f32])
    ensures ints { depth.new ≡ far_ints (length depth.old) }
    ensures floats { depth_f32.new ≡ far_floats (length depth_f32.old) }
{
    depth.fill(i32::MAX);
    depth_f32.fill(1.0);
}
