// The two lists of calls: session numbers modulo 7, rolled forward by one until only a renewal helps.
// Some calls among them are to be refused.
use calls::call::Call;

// Record 0 alone, until its page is worn out.
pub const UNTIL_WORN: [Call; 24] = [
    Call::Get { record: 0 },
    Call::Get { record: 20 },
    Call::Put {
        record: 0,
        value: 7,
    },
    Call::Put {
        record: 0,
        value: 1,
    },
    Call::Renew {
        record: 0,
        value: 2,
    },
    Call::Put {
        record: 0,
        value: 2,
    },
    Call::Put {
        record: 0,
        value: 3,
    },
    Call::Put {
        record: 0,
        value: 4,
    },
    Call::Renew {
        record: 0,
        value: 4,
    },
    Call::Put {
        record: 0,
        value: 5,
    },
    Call::Put {
        record: 0,
        value: 6,
    },
    Call::Put {
        record: 0,
        value: 0,
    },
    Call::Put {
        record: 0,
        value: 1,
    },
    Call::Renew {
        record: 0,
        value: 1,
    },
    Call::Put {
        record: 0,
        value: 2,
    },
    Call::Put {
        record: 0,
        value: 3,
    },
    Call::Put {
        record: 0,
        value: 4,
    },
    Call::Renew {
        record: 0,
        value: 4,
    },
    Call::Put {
        record: 0,
        value: 5,
    },
    Call::Put {
        record: 0,
        value: 6,
    },
    Call::Put {
        record: 0,
        value: 0,
    },
    Call::Put {
        record: 0,
        value: 1,
    },
    Call::Renew {
        record: 0,
        value: 1,
    },
    Call::Get { record: 0 },
];

// Record 0, with a neighbour in its page that keeps its value.
pub const WITH_A_NEIGHBOUR: [Call; 10] = [
    Call::Put {
        record: 1,
        value: 5,
    },
    Call::Put {
        record: 0,
        value: 1,
    },
    Call::Put {
        record: 0,
        value: 2,
    },
    Call::Put {
        record: 0,
        value: 3,
    },
    Call::Put {
        record: 0,
        value: 3,
    },
    Call::Put {
        record: 0,
        value: 4,
    },
    Call::Renew {
        record: 0,
        value: 4,
    },
    Call::Get { record: 0 },
    Call::Get { record: 1 },
    Call::Put {
        record: 0,
        value: 5,
    },
];
