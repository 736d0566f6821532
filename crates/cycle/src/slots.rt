// What the steps shift and override: of one jet as yes and no values (T is bool), and of a string's jets as words (T is u32).

// The three off slots.
#[derive(Clone, Copy, Default)]
pub struct OffSlots<T> {
    pub newest: T,
    pub older: T,
    pub oldest: T,
}

// The two on slots, and the recheck word.
#[derive(Clone, Copy, Default)]
pub struct OnSlots<T> {
    pub newest: T,
    pub older: T,
    pub recheck: T,
}

// The inhibits and re-enables in force.
#[derive(Clone, Copy, Default)]
pub struct Overrides<T> {
    pub inhibit: T,
    pub reenable: T,
}
