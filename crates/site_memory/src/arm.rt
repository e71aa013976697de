//! Which call fails.

ghost use Rattle.std.specs.Prelude.{◌≡◌, ◌<◌, ◌^◌};
ghost use Rattle.site_memory.specs.Armings.{arming_of};
ghost use Rattle.site_memory.specs.Arms.{fate_of, next_of, armed};

/// What a crash leaves of the bytes that are pending: what reads give, what was there before, or that byte.
#[derive(Clone, Copy, Debug, PartialEq, Eq)]
pub enum Choice {
    Keep,
    Drop,
    Fill(u8),
}

/// The call that is to fail, counted from now, from 1: it alone, or, but for `Keep`, it and all behind it.
#[derive(Clone, Copy, Debug, PartialEq, Eq)]
pub enum Arm {
    Idle,
    Fail(u32),
    Stop(u32, Choice),
    Stopped,
}

/// What a machine was told to fail: of its calls since it had made so many the one of this number among all, from 1, or none where that is 0.
#[derive(Clone, Copy, Debug, PartialEq, Eq)]
pub struct Arming {
    pub since: usize,
    pub fails: usize,
}

/// What a machine is told that is armed so behind so many calls.
pub fn arming_of(since: usize, arm: Arm) -> Option<Arming>
    requires { since < 2 ^ 63 }
    ensures { result ≡ arming_of since arm }
{
    match arm {
        Arm::Idle => Some(Arming { since, fails: 0 }),
        Arm::Fail(k) => {
            let fails = if k == 0 { 0 } else { since + k as usize };
            Some(Arming { since, fails })
        }
        Arm::Stop(..) | Arm::Stopped => None,
    }
}

/// What becomes of a call.
#[derive(Clone, Copy, Debug, PartialEq, Eq)]
pub enum Fate {
    Done,
    /// It fails, and a write may leave anything of its range.
    Failed,
    /// It fails, and changes nothing.
    Refused,
}

impl Arm {
    /// What becomes of the next call.
    pub fn fate(&self) -> Fate
        ensures { result ≡ fate_of self.now }
    {
        match self {
            Arm::Idle => Fate::Done,
            Arm::Fail(k) => { if *k == 1 { Fate::Failed } else { Fate::Done } }
            Arm::Stop(k, Choice::Keep) => Fate::Done,
            Arm::Stop(k, _) => { if *k == 1 { Fate::Failed } else { Fate::Done } }
            Arm::Stopped => Fate::Refused,
        }
    }

    /// Behind that call.
    pub fn next(&self) -> Arm
        ensures { result ≡ next_of self.now }
    {
        match self {
            Arm::Idle => Arm::Idle,
            Arm::Fail(k) => { if *k > 1 { Arm::Fail(*k - 1) } else { Arm::Idle } }
            Arm::Stop(k, choice) => {
                if *k > 1 {
                    Arm::Stop(*k - 1, *choice)
                } else if *k == 1 {
                    Arm::Stopped
                } else {
                    Arm::Idle
                }
            }
            Arm::Stopped => Arm::Stopped,
        }
    }

    /// That arm in place of this one, unless the machine has stopped.
    pub fn set(&mut self, arm: Arm)
        ensures { self.new ≡ armed arm self.old }
    {
        match self {
            Arm::Stopped => {}
            _ => *self = arm,
        }
    }
}
