// What an order of classes answers, and the laws that it owes.
ghost use Rattle.std.specs.Prelude.{◌≡◌, ℕ, ◌<◌, ◌≤◌, Bool, true, ◌≢◌};

// No order has more classes.
pub const MAX_CLASSES: u8 = 16;

// A class is a security level, numbered from 0, and its grade is its height in the order.
// Among the classes dominance is a partial order, along which the grades rise strictly.
// The answers are functions of the order's value alone.
pub trait ClassOrder: Sized {
    ghost classes: { Self → ℕ };

    ghost dominates: { Self → ℕ → ℕ → Bool };

    ghost grade: { Self → ℕ → ℕ };

    // How many classes there are.
    fn classes(&self) -> u8
        ensures reply { result ≡ classes self.now };

    // Whether class c is class d or stands above it.
    fn dominates(&self, c: u8, d: u8) -> bool
        ensures reply { result ≡ dominates self.now c d };

    fn grade(&self, c: u8) -> u8
        ensures reply { result ≡ grade self.now c };

    ghost few: { (s : Self) → (1 ≤ classes s) × (classes s ≤ 16) };

    ghost reflexive: { (s : Self) (c : ℕ) → c < classes s → dominates s c c ≡ true };

    ghost antisymmetric: { (s : Self) (c d : ℕ) → c < classes s → d < classes s → dominates s c d ≡ true → dominates s d c ≡ true → c ≡ d };

    ghost transitive: { (s : Self) (c d e : ℕ) → c < classes s → d < classes s → e < classes s → dominates s c d ≡ true → dominates s d e ≡ true → dominates s c e ≡ true };

    // A class strictly below another has the smaller grade.
    ghost monotone: { (s : Self) (c d : ℕ) → c < classes s → d < classes s → dominates s c d ≡ true → (c ≢ d) → grade s d < grade s c };

    ghost bounded: { (s : Self) (c : ℕ) → c < classes s → grade s c ≤ 23 };
}
