// The braking distance in closed form.
ghost use Rattle.std.specs.Prelude.{◌≡◌};
ghost use Rattle.motion.specs.Braking.{braking};

// The counts that an axis travels from `speed`, this tick included, if every tick takes `deceleration` off its speed.
// A deceleration of 0 is read as 1.
pub fn braking_distance(speed: u16, deceleration: u16) -> u32
    ensures { result ≡ braking deceleration speed }
{
    // The speeds fall by equal steps from the first to the last, so their sum is the number of ticks
    // times the mean of those two.
    let step = deceleration.max(1);
    let last = speed % step;
    let ticks = u64::from(speed / step) + 1;
    ((u64::from(speed) + u64::from(last)) * ticks / 2) as u32
}
