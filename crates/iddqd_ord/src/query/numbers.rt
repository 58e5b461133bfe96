//! A number, a `char` or a `bool` by itself is a query for the equal one: `get(7)`, beside `get(&7)`.
ghost use Rattle.std.specs.Ordering.{nat_cmp, int_cmp, bool_cmp};
ghost use Rattle.std.specs.Cmp.{nat_cmp_total, int_cmp_total, bool_cmp_total};
ghost use Rattle.iddqd_ord.specs.Ordered.{IsRising-key};

use super::OrdQuery;
use std::cmp::Ordering;

impl OrdQuery<u8> for u8 {
    ghost compare = { λ q k. nat_cmp k q };

    fn compare(&self, key: &u8) -> Ordering {
        (*key).cmp(self)
    }

    ghost rises = { λ q. IsRising-key nat_cmp_total (λ k. k) q };
}

impl OrdQuery<u16> for u16 {
    ghost compare = { λ q k. nat_cmp k q };

    fn compare(&self, key: &u16) -> Ordering {
        (*key).cmp(self)
    }

    ghost rises = { λ q. IsRising-key nat_cmp_total (λ k. k) q };
}

impl OrdQuery<u32> for u32 {
    ghost compare = { λ q k. nat_cmp k q };

    fn compare(&self, key: &u32) -> Ordering {
        (*key).cmp(self)
    }

    ghost rises = { λ q. IsRising-key nat_cmp_total (λ k. k) q };
}

impl OrdQuery<u64> for u64 {
    ghost compare = { λ q k. nat_cmp k q };

    fn compare(&self, key: &u64) -> Ordering {
        (*key).cmp(self)
    }

    ghost rises = { λ q. IsRising-key nat_cmp_total (λ k. k) q };
}

impl OrdQuery<u128> for u128 {
    ghost compare = { λ q k. nat_cmp k q };

    fn compare(&self, key: &u128) -> Ordering {
        (*key).cmp(self)
    }

    ghost rises = { λ q. IsRising-key nat_cmp_total (λ k. k) q };
}

impl OrdQuery<usize> for usize {
    ghost compare = { λ q k. nat_cmp k q };

    fn compare(&self, key: &usize) -> Ordering {
        (*key).cmp(self)
    }

    ghost rises = { λ q. IsRising-key nat_cmp_total (λ k. k) q };
}

impl OrdQuery<i8> for i8 {
    ghost compare = { λ q k. int_cmp k q };

    fn compare(&self, key: &i8) -> Ordering {
        (*key).cmp(self)
    }

    ghost rises = { λ q. IsRising-key int_cmp_total (λ k. k) q };
}

impl OrdQuery<i16> for i16 {
    ghost compare = { λ q k. int_cmp k q };

    fn compare(&self, key: &i16) -> Ordering {
        (*key).cmp(self)
    }

    ghost rises = { λ q. IsRising-key int_cmp_total (λ k. k) q };
}

impl OrdQuery<i32> for i32 {
    ghost compare = { λ q k. int_cmp k q };

    fn compare(&self, key: &i32) -> Ordering {
        (*key).cmp(self)
    }

    ghost rises = { λ q. IsRising-key int_cmp_total (λ k. k) q };
}

impl OrdQuery<i64> for i64 {
    ghost compare = { λ q k. int_cmp k q };

    fn compare(&self, key: &i64) -> Ordering {
        (*key).cmp(self)
    }

    ghost rises = { λ q. IsRising-key int_cmp_total (λ k. k) q };
}

impl OrdQuery<i128> for i128 {
    ghost compare = { λ q k. int_cmp k q };

    fn compare(&self, key: &i128) -> Ordering {
        (*key).cmp(self)
    }

    ghost rises = { λ q. IsRising-key int_cmp_total (λ k. k) q };
}

impl OrdQuery<isize> for isize {
    ghost compare = { λ q k. int_cmp k q };

    fn compare(&self, key: &isize) -> Ordering {
        (*key).cmp(self)
    }

    ghost rises = { λ q. IsRising-key int_cmp_total (λ k. k) q };
}

impl OrdQuery<char> for char {
    ghost compare = { λ q k. nat_cmp k q };

    fn compare(&self, key: &char) -> Ordering {
        (*key).cmp(self)
    }

    ghost rises = { λ q. IsRising-key nat_cmp_total (λ k. k) q };
}

impl OrdQuery<bool> for bool {
    ghost compare = { λ q k. bool_cmp k q };

    fn compare(&self, key: &bool) -> Ordering {
        (*key).cmp(self)
    }

    ghost rises = { λ q. IsRising-key bool_cmp_total (λ k. k) q };
}
