//! What is asked, path by path, with each fault.

use al_routes::{FormFault, Request, Routes};
use std::alloc::Global;
use std::test::*;

/// A method, a target, and what is answered, line by line.
const ROWS: &str = "\
POST /v1/blocks Post\n\
GET /v1/accounts/AAAAAAAAAAAAAAAAAAAAAAAAAAAAAAAAAAAAAAAAAAAAAAAAAAAAY5HFKQ Account\n\
GET /v1/accounts/AAAAAAAAAAAAAAAAAAAAAAAAAAAAAAAAAAAAAAAAAAAAAAAAAAAAY5HFKQ/assets/7 Asset\n\
GET /v1/accounts/AAAAAAAAAAAAAAAAAAAAAAAAAAAAAAAAAAAAAAAAAAAAAAAAAAAAY5HFKQ/apps/7 App\n\
GET /v1/apps/7/boxes/ff BoxOf\n\
GET /v1/creators/7 Creator\n\
GET /v1/online/AAAAAAAAAAAAAAAAAAAAAAAAAAAAAAAAAAAAAAAAAAAAAAAAAAAAY5HFKQ Online\n\
GET /v1/circulation Circulation\n\
GET /v1/supply Supply\n\
GET /v1/status Standing\n\
POST /v1/blocks? Post\n\
GET /v1/accounts/AAAAAAAAAAAAAAAAAAAAAAAAAAAAAAAAAAAAAAAAAAAAAAAAAAAAY5HFKQ? Account\n\
GET /v1/accounts/AAAAAAAAAAAAAAAAAAAAAAAAAAAAAAAAAAAAAAAAAAAAAAAAAAAAY5HFKQ/assets/7? Asset\n\
GET /v1/accounts/AAAAAAAAAAAAAAAAAAAAAAAAAAAAAAAAAAAAAAAAAAAAAAAAAAAAY5HFKQ/apps/7? App\n\
GET /v1/apps/7/boxes/fF? BoxOf\n\
GET /v1/creators/0? Creator\n\
GET /v1/online/AAAAAAAAAAAAAAAAAAAAAAAAAAAAAAAAAAAAAAAAAAAAAAAAAAAAY5HFKQ? Online\n\
GET /v1/circulation? Circulation\n\
GET /v1/supply? Supply\n\
GET /v1/status? Standing\n\
GET /v1/accounts/AAAAAAAAAAAAAAAAAAAAAAAAAAAAAAAAAAAAAAAAAAAAAAAAAAAAY5HFKQ?round=0 Account\n\
GET /v1/accounts/AAAAAAAAAAAAAAAAAAAAAAAAAAAAAAAAAAAAAAAAAAAAAAAAAAAAY5HFKQ?round=4611686018427387904 Account\n\
GET /v1/accounts/AAAAAAAAAAAAAAAAAAAAAAAAAAAAAAAAAAAAAAAAAAAAAAAAAAAAY5HFKQ?round= BadQuery\n\
GET /v1/accounts/AAAAAAAAAAAAAAAAAAAAAAAAAAAAAAAAAAAAAAAAAAAAAAAAAAAAY5HFKQ?round=01 BadQuery\n\
GET /v1/accounts/AAAAAAAAAAAAAAAAAAAAAAAAAAAAAAAAAAAAAAAAAAAAAAAAAAAAY5HFKQ?round=+1 BadQuery\n\
GET /v1/accounts/AAAAAAAAAAAAAAAAAAAAAAAAAAAAAAAAAAAAAAAAAAAAAAAAAAAAY5HFKQ?round=-1 BadQuery\n\
GET /v1/accounts/AAAAAAAAAAAAAAAAAAAAAAAAAAAAAAAAAAAAAAAAAAAAAAAAAAAAY5HFKQ?round=4611686018427387905 BadQuery\n\
GET /v1/accounts/AAAAAAAAAAAAAAAAAAAAAAAAAAAAAAAAAAAAAAAAAAAAAAAAAAAAY5HFKQ?round=18446744073709551616 BadQuery\n\
GET /v1/accounts/AAAAAAAAAAAAAAAAAAAAAAAAAAAAAAAAAAAAAAAAAAAAAAAAAAAAY5HFKQ?Round=1 BadQuery\n\
GET /v1/accounts/AAAAAAAAAAAAAAAAAAAAAAAAAAAAAAAAAAAAAAAAAAAAAAAAAAAAY5HFKQ?round=1? BadQuery\n\
GET /v1/accounts/AAAAAAAAAAAAAAAAAAAAAAAAAAAAAAAAAAAAAAAAAAAAAAAAAAAAY5HFKQ?round=1& BadQuery\n\
GET /v1/accounts/AAAAAAAAAAAAAAAAAAAAAAAAAAAAAAAAAAAAAAAAAAAAAAAAAAAAY5HFKQ?x BadQuery\n\
GET /v1/accounts/AAAAAAAAAAAAAAAAAAAAAAAAAAAAAAAAAAAAAAAAAAAAAAAAAAAAY5HFKQ?vote=1 BadQuery\n\
GET /v1/accounts/AAAAAAAAAAAAAAAAAAAAAAAAAAAAAAAAAAAAAAAAAAAAAAAAAAAAY5HFKQ?round=1&vote=1 BadQuery\n\
POST /v1/accounts/AAAAAAAAAAAAAAAAAAAAAAAAAAAAAAAAAAAAAAAAAAAAAAAAAAAAY5HFKQ Method\n\
DELETE /v1/accounts/AAAAAAAAAAAAAAAAAAAAAAAAAAAAAAAAAAAAAAAAAAAAAAAAAAAAY5HFKQ?x Method\n\
GET /v1/accounts/AAAAAAAAAAAAAAAAAAAAAAAAAAAAAAAAAAAAAAAAAAAAAAAAAAAAY5HFKQ/assets/7?round=0 Asset\n\
GET /v1/accounts/AAAAAAAAAAAAAAAAAAAAAAAAAAAAAAAAAAAAAAAAAAAAAAAAAAAAY5HFKQ/assets/7?round=4611686018427387904 Asset\n\
GET /v1/accounts/AAAAAAAAAAAAAAAAAAAAAAAAAAAAAAAAAAAAAAAAAAAAAAAAAAAAY5HFKQ/assets/7?round= BadQuery\n\
GET /v1/accounts/AAAAAAAAAAAAAAAAAAAAAAAAAAAAAAAAAAAAAAAAAAAAAAAAAAAAY5HFKQ/assets/7?round=01 BadQuery\n\
GET /v1/accounts/AAAAAAAAAAAAAAAAAAAAAAAAAAAAAAAAAAAAAAAAAAAAAAAAAAAAY5HFKQ/assets/7?round=+1 BadQuery\n\
GET /v1/accounts/AAAAAAAAAAAAAAAAAAAAAAAAAAAAAAAAAAAAAAAAAAAAAAAAAAAAY5HFKQ/assets/7?round=-1 BadQuery\n\
GET /v1/accounts/AAAAAAAAAAAAAAAAAAAAAAAAAAAAAAAAAAAAAAAAAAAAAAAAAAAAY5HFKQ/assets/7?round=4611686018427387905 BadQuery\n\
GET /v1/accounts/AAAAAAAAAAAAAAAAAAAAAAAAAAAAAAAAAAAAAAAAAAAAAAAAAAAAY5HFKQ/assets/7?round=18446744073709551616 BadQuery\n\
GET /v1/accounts/AAAAAAAAAAAAAAAAAAAAAAAAAAAAAAAAAAAAAAAAAAAAAAAAAAAAY5HFKQ/assets/7?Round=1 BadQuery\n\
GET /v1/accounts/AAAAAAAAAAAAAAAAAAAAAAAAAAAAAAAAAAAAAAAAAAAAAAAAAAAAY5HFKQ/assets/7?round=1? BadQuery\n\
GET /v1/accounts/AAAAAAAAAAAAAAAAAAAAAAAAAAAAAAAAAAAAAAAAAAAAAAAAAAAAY5HFKQ/assets/7?round=1& BadQuery\n\
GET /v1/accounts/AAAAAAAAAAAAAAAAAAAAAAAAAAAAAAAAAAAAAAAAAAAAAAAAAAAAY5HFKQ/assets/7?x BadQuery\n\
GET /v1/accounts/AAAAAAAAAAAAAAAAAAAAAAAAAAAAAAAAAAAAAAAAAAAAAAAAAAAAY5HFKQ/assets/7?vote=1 BadQuery\n\
GET /v1/accounts/AAAAAAAAAAAAAAAAAAAAAAAAAAAAAAAAAAAAAAAAAAAAAAAAAAAAY5HFKQ/assets/7?round=1&vote=1 BadQuery\n\
POST /v1/accounts/AAAAAAAAAAAAAAAAAAAAAAAAAAAAAAAAAAAAAAAAAAAAAAAAAAAAY5HFKQ/assets/7 Method\n\
DELETE /v1/accounts/AAAAAAAAAAAAAAAAAAAAAAAAAAAAAAAAAAAAAAAAAAAAAAAAAAAAY5HFKQ/assets/7?x Method\n\
GET /v1/accounts/AAAAAAAAAAAAAAAAAAAAAAAAAAAAAAAAAAAAAAAAAAAAAAAAAAAAY5HFKQ/apps/7?round=0 App\n\
GET /v1/accounts/AAAAAAAAAAAAAAAAAAAAAAAAAAAAAAAAAAAAAAAAAAAAAAAAAAAAY5HFKQ/apps/7?round=4611686018427387904 App\n\
GET /v1/accounts/AAAAAAAAAAAAAAAAAAAAAAAAAAAAAAAAAAAAAAAAAAAAAAAAAAAAY5HFKQ/apps/7?round= BadQuery\n\
GET /v1/accounts/AAAAAAAAAAAAAAAAAAAAAAAAAAAAAAAAAAAAAAAAAAAAAAAAAAAAY5HFKQ/apps/7?round=01 BadQuery\n\
GET /v1/accounts/AAAAAAAAAAAAAAAAAAAAAAAAAAAAAAAAAAAAAAAAAAAAAAAAAAAAY5HFKQ/apps/7?round=+1 BadQuery\n\
GET /v1/accounts/AAAAAAAAAAAAAAAAAAAAAAAAAAAAAAAAAAAAAAAAAAAAAAAAAAAAY5HFKQ/apps/7?round=-1 BadQuery\n\
GET /v1/accounts/AAAAAAAAAAAAAAAAAAAAAAAAAAAAAAAAAAAAAAAAAAAAAAAAAAAAY5HFKQ/apps/7?round=4611686018427387905 BadQuery\n\
GET /v1/accounts/AAAAAAAAAAAAAAAAAAAAAAAAAAAAAAAAAAAAAAAAAAAAAAAAAAAAY5HFKQ/apps/7?round=18446744073709551616 BadQuery\n\
GET /v1/accounts/AAAAAAAAAAAAAAAAAAAAAAAAAAAAAAAAAAAAAAAAAAAAAAAAAAAAY5HFKQ/apps/7?Round=1 BadQuery\n\
GET /v1/accounts/AAAAAAAAAAAAAAAAAAAAAAAAAAAAAAAAAAAAAAAAAAAAAAAAAAAAY5HFKQ/apps/7?round=1? BadQuery\n\
GET /v1/accounts/AAAAAAAAAAAAAAAAAAAAAAAAAAAAAAAAAAAAAAAAAAAAAAAAAAAAY5HFKQ/apps/7?round=1& BadQuery\n\
GET /v1/accounts/AAAAAAAAAAAAAAAAAAAAAAAAAAAAAAAAAAAAAAAAAAAAAAAAAAAAY5HFKQ/apps/7?x BadQuery\n\
GET /v1/accounts/AAAAAAAAAAAAAAAAAAAAAAAAAAAAAAAAAAAAAAAAAAAAAAAAAAAAY5HFKQ/apps/7?vote=1 BadQuery\n\
GET /v1/accounts/AAAAAAAAAAAAAAAAAAAAAAAAAAAAAAAAAAAAAAAAAAAAAAAAAAAAY5HFKQ/apps/7?round=1&vote=1 BadQuery\n\
POST /v1/accounts/AAAAAAAAAAAAAAAAAAAAAAAAAAAAAAAAAAAAAAAAAAAAAAAAAAAAY5HFKQ/apps/7 Method\n\
DELETE /v1/accounts/AAAAAAAAAAAAAAAAAAAAAAAAAAAAAAAAAAAAAAAAAAAAAAAAAAAAY5HFKQ/apps/7?x Method\n\
GET /v1/apps/7/boxes/00?round=0 BoxOf\n\
GET /v1/apps/7/boxes/00?round=4611686018427387904 BoxOf\n\
GET /v1/apps/7/boxes/00?round= BadQuery\n\
GET /v1/apps/7/boxes/00?round=01 BadQuery\n\
GET /v1/apps/7/boxes/00?round=+1 BadQuery\n\
GET /v1/apps/7/boxes/00?round=-1 BadQuery\n\
GET /v1/apps/7/boxes/00?round=4611686018427387905 BadQuery\n\
GET /v1/apps/7/boxes/00?round=18446744073709551616 BadQuery\n\
GET /v1/apps/7/boxes/00?Round=1 BadQuery\n\
GET /v1/apps/7/boxes/00?round=1? BadQuery\n\
GET /v1/apps/7/boxes/00?round=1& BadQuery\n\
GET /v1/apps/7/boxes/00?x BadQuery\n\
GET /v1/apps/7/boxes/00?vote=1 BadQuery\n\
GET /v1/apps/7/boxes/00?round=1&vote=1 BadQuery\n\
POST /v1/apps/7/boxes/00 Method\n\
DELETE /v1/apps/7/boxes/00?x Method\n\
GET /v1/creators/4611686018427387904?round=0 Creator\n\
GET /v1/creators/4611686018427387904?round=4611686018427387904 Creator\n\
GET /v1/creators/4611686018427387904?round= BadQuery\n\
GET /v1/creators/4611686018427387904?round=01 BadQuery\n\
GET /v1/creators/4611686018427387904?round=+1 BadQuery\n\
GET /v1/creators/4611686018427387904?round=-1 BadQuery\n\
GET /v1/creators/4611686018427387904?round=4611686018427387905 BadQuery\n\
GET /v1/creators/4611686018427387904?round=18446744073709551616 BadQuery\n\
GET /v1/creators/4611686018427387904?Round=1 BadQuery\n\
GET /v1/creators/4611686018427387904?round=1? BadQuery\n\
GET /v1/creators/4611686018427387904?round=1& BadQuery\n\
GET /v1/creators/4611686018427387904?x BadQuery\n\
GET /v1/creators/4611686018427387904?vote=1 BadQuery\n\
GET /v1/creators/4611686018427387904?round=1&vote=1 BadQuery\n\
POST /v1/creators/4611686018427387904 Method\n\
DELETE /v1/creators/4611686018427387904?x Method\n\
GET /v1/online/AAAAAAAAAAAAAAAAAAAAAAAAAAAAAAAAAAAAAAAAAAAAAAAAAAAAY5HFKQ?round=0 Online\n\
GET /v1/online/AAAAAAAAAAAAAAAAAAAAAAAAAAAAAAAAAAAAAAAAAAAAAAAAAAAAY5HFKQ?round=4611686018427387904 Online\n\
GET /v1/online/AAAAAAAAAAAAAAAAAAAAAAAAAAAAAAAAAAAAAAAAAAAAAAAAAAAAY5HFKQ?round= BadQuery\n\
GET /v1/online/AAAAAAAAAAAAAAAAAAAAAAAAAAAAAAAAAAAAAAAAAAAAAAAAAAAAY5HFKQ?round=01 BadQuery\n\
GET /v1/online/AAAAAAAAAAAAAAAAAAAAAAAAAAAAAAAAAAAAAAAAAAAAAAAAAAAAY5HFKQ?round=+1 BadQuery\n\
GET /v1/online/AAAAAAAAAAAAAAAAAAAAAAAAAAAAAAAAAAAAAAAAAAAAAAAAAAAAY5HFKQ?round=-1 BadQuery\n\
GET /v1/online/AAAAAAAAAAAAAAAAAAAAAAAAAAAAAAAAAAAAAAAAAAAAAAAAAAAAY5HFKQ?round=4611686018427387905 BadQuery\n\
GET /v1/online/AAAAAAAAAAAAAAAAAAAAAAAAAAAAAAAAAAAAAAAAAAAAAAAAAAAAY5HFKQ?round=18446744073709551616 BadQuery\n\
GET /v1/online/AAAAAAAAAAAAAAAAAAAAAAAAAAAAAAAAAAAAAAAAAAAAAAAAAAAAY5HFKQ?Round=1 BadQuery\n\
GET /v1/online/AAAAAAAAAAAAAAAAAAAAAAAAAAAAAAAAAAAAAAAAAAAAAAAAAAAAY5HFKQ?round=1? BadQuery\n\
GET /v1/online/AAAAAAAAAAAAAAAAAAAAAAAAAAAAAAAAAAAAAAAAAAAAAAAAAAAAY5HFKQ?round=1& BadQuery\n\
GET /v1/online/AAAAAAAAAAAAAAAAAAAAAAAAAAAAAAAAAAAAAAAAAAAAAAAAAAAAY5HFKQ?x BadQuery\n\
GET /v1/online/AAAAAAAAAAAAAAAAAAAAAAAAAAAAAAAAAAAAAAAAAAAAAAAAAAAAY5HFKQ?vote=1 BadQuery\n\
GET /v1/online/AAAAAAAAAAAAAAAAAAAAAAAAAAAAAAAAAAAAAAAAAAAAAAAAAAAAY5HFKQ?round=1&vote=1 BadQuery\n\
POST /v1/online/AAAAAAAAAAAAAAAAAAAAAAAAAAAAAAAAAAAAAAAAAAAAAAAAAAAAY5HFKQ Method\n\
DELETE /v1/online/AAAAAAAAAAAAAAAAAAAAAAAAAAAAAAAAAAAAAAAAAAAAAAAAAAAAY5HFKQ?x Method\n\
GET /v1/circulation?round=0 Circulation\n\
GET /v1/circulation?round=4611686018427387904 Circulation\n\
GET /v1/circulation?round= BadQuery\n\
GET /v1/circulation?round=01 BadQuery\n\
GET /v1/circulation?round=+1 BadQuery\n\
GET /v1/circulation?round=-1 BadQuery\n\
GET /v1/circulation?round=4611686018427387905 BadQuery\n\
GET /v1/circulation?round=18446744073709551616 BadQuery\n\
GET /v1/circulation?Round=1 BadQuery\n\
GET /v1/circulation?round=1? BadQuery\n\
GET /v1/circulation?round=1& BadQuery\n\
GET /v1/circulation?x BadQuery\n\
POST /v1/circulation Method\n\
DELETE /v1/circulation?x Method\n\
GET /v1/supply?round=0 Supply\n\
GET /v1/supply?round=4611686018427387904 Supply\n\
GET /v1/supply?round= BadQuery\n\
GET /v1/supply?round=01 BadQuery\n\
GET /v1/supply?round=+1 BadQuery\n\
GET /v1/supply?round=-1 BadQuery\n\
GET /v1/supply?round=4611686018427387905 BadQuery\n\
GET /v1/supply?round=18446744073709551616 BadQuery\n\
GET /v1/supply?Round=1 BadQuery\n\
GET /v1/supply?round=1? BadQuery\n\
GET /v1/supply?round=1& BadQuery\n\
GET /v1/supply?x BadQuery\n\
GET /v1/supply?vote=1 BadQuery\n\
GET /v1/supply?round=1&vote=1 BadQuery\n\
POST /v1/supply Method\n\
DELETE /v1/supply?x Method\n\
GET /v1/circulation?vote=6 Circulation\n\
GET /v1/circulation?vote=0 Circulation\n\
GET /v1/circulation?vote=4611686018427387904 Circulation\n\
GET /v1/circulation?round=5&vote=6 Circulation\n\
GET /v1/circulation?round=0&vote=4611686018427387904 Circulation\n\
GET /v1/circulation?vote=6&round=5 BadQuery\n\
GET /v1/circulation?vote= BadQuery\n\
GET /v1/circulation?vote=06 BadQuery\n\
GET /v1/circulation?vote=4611686018427387905 BadQuery\n\
GET /v1/circulation?round=5&vote= BadQuery\n\
GET /v1/circulation?round=05&vote=6 BadQuery\n\
GET /v1/circulation?round=5&&vote=6 BadQuery\n\
GET /v1/circulation?round=5&vote=6& BadQuery\n\
GET /v1/circulation?&vote=6 BadQuery\n\
GET /v1/circulation?round=5&round=6 BadQuery\n\
GET /v1/circulation?vote=5&vote=6 BadQuery\n\
GET /v1/circulation?round=5;vote=6 BadQuery\n\
GET /v1/circulation?round=5&Vote=6 BadQuery\n\
GET /v1/status?round=5 BadQuery\n\
POST /v1/blocks?round=5 BadQuery\n\
GET /v1/status?x BadQuery\n\
POST /v1/blocks?x BadQuery\n\
GET /v1/status?& BadQuery\n\
POST /v1/blocks?& BadQuery\n\
GET /v1/blocks Method\n\
PUT /v1/blocks Method\n\
DELETE /v1/blocks Method\n\
HEAD /v1/blocks Method\n\
post /v1/blocks Method\n\
GET /v1/blocks?x Method\n\
POST /v1/status Method\n\
DELETE /v1/status Method\n\
HEAD /v1/status Method\n\
get /v1/status Method\n\
GETS /v1/status Method\n\
DELETE /v1/accounts/x Method\n\
POST /v1/apps/x/boxes/f?x Method\n\
GET /v1/accounts/x BadAddress\n\
GET /v1/accounts/x/assets/7 BadAddress\n\
GET /v1/accounts/x/apps/7 BadAddress\n\
GET /v1/online/x BadAddress\n\
GET /v1/accounts/aaaaaaaaaaaaaaaaaaaaaaaaaaaaaaaaaaaaaaaaaaaaaaaaaaaay5hfkq BadAddress\n\
GET /v1/accounts/aaaaaaaaaaaaaaaaaaaaaaaaaaaaaaaaaaaaaaaaaaaaaaaaaaaay5hfkq/assets/7 BadAddress\n\
GET /v1/accounts/aaaaaaaaaaaaaaaaaaaaaaaaaaaaaaaaaaaaaaaaaaaaaaaaaaaay5hfkq/apps/7 BadAddress\n\
GET /v1/online/aaaaaaaaaaaaaaaaaaaaaaaaaaaaaaaaaaaaaaaaaaaaaaaaaaaay5hfkq BadAddress\n\
GET /v1/accounts/AAAAAAAAAAAAAAAAAAAAAAAAAAAAAAAAAAAAAAAAAAAAAAAAAAAAY5HFK BadAddress\n\
GET /v1/accounts/AAAAAAAAAAAAAAAAAAAAAAAAAAAAAAAAAAAAAAAAAAAAAAAAAAAAY5HFK/assets/7 BadAddress\n\
GET /v1/accounts/AAAAAAAAAAAAAAAAAAAAAAAAAAAAAAAAAAAAAAAAAAAAAAAAAAAAY5HFK/apps/7 BadAddress\n\
GET /v1/online/AAAAAAAAAAAAAAAAAAAAAAAAAAAAAAAAAAAAAAAAAAAAAAAAAAAAY5HFK BadAddress\n\
GET /v1/accounts/AAAAAAAAAAAAAAAAAAAAAAAAAAAAAAAAAAAAAAAAAAAAAAAAAAAAY5HFKQA BadAddress\n\
GET /v1/accounts/AAAAAAAAAAAAAAAAAAAAAAAAAAAAAAAAAAAAAAAAAAAAAAAAAAAAY5HFKQA/assets/7 BadAddress\n\
GET /v1/accounts/AAAAAAAAAAAAAAAAAAAAAAAAAAAAAAAAAAAAAAAAAAAAAAAAAAAAY5HFKQA/apps/7 BadAddress\n\
GET /v1/online/AAAAAAAAAAAAAAAAAAAAAAAAAAAAAAAAAAAAAAAAAAAAAAAAAAAAY5HFKQA BadAddress\n\
GET /v1/accounts/AAAAAAAAAAAAAAAAAAAAAAAAAAAAAAAAAAAAAAAAAAAAAAAAAAAAY5HFLA BadAddress\n\
GET /v1/accounts/AAAAAAAAAAAAAAAAAAAAAAAAAAAAAAAAAAAAAAAAAAAAAAAAAAAAY5HFLA/assets/7 BadAddress\n\
GET /v1/accounts/AAAAAAAAAAAAAAAAAAAAAAAAAAAAAAAAAAAAAAAAAAAAAAAAAAAAY5HFLA/apps/7 BadAddress\n\
GET /v1/online/AAAAAAAAAAAAAAAAAAAAAAAAAAAAAAAAAAAAAAAAAAAAAAAAAAAAY5HFLA BadAddress\n\
GET /v1/accounts/AAAAAAAAAAAAAAAAAAAAAAAAAAAAAAAAAAAAAAAAAAAAAAAAAAAAY5HFKR BadAddress\n\
GET /v1/accounts/AAAAAAAAAAAAAAAAAAAAAAAAAAAAAAAAAAAAAAAAAAAAAAAAAAAAY5HFKR/assets/7 BadAddress\n\
GET /v1/accounts/AAAAAAAAAAAAAAAAAAAAAAAAAAAAAAAAAAAAAAAAAAAAAAAAAAAAY5HFKR/apps/7 BadAddress\n\
GET /v1/online/AAAAAAAAAAAAAAAAAAAAAAAAAAAAAAAAAAAAAAAAAAAAAAAAAAAAY5HFKR BadAddress\n\
GET /v1/accounts/%41AAAAAAAAAAAAAAAAAAAAAAAAAAAAAAAAAAAAAAAAAAAAAAAAAAAY5HFKQ BadAddress\n\
GET /v1/accounts/%41AAAAAAAAAAAAAAAAAAAAAAAAAAAAAAAAAAAAAAAAAAAAAAAAAAAY5HFKQ/assets/7 BadAddress\n\
GET /v1/accounts/%41AAAAAAAAAAAAAAAAAAAAAAAAAAAAAAAAAAAAAAAAAAAAAAAAAAAY5HFKQ/apps/7 BadAddress\n\
GET /v1/online/%41AAAAAAAAAAAAAAAAAAAAAAAAAAAAAAAAAAAAAAAAAAAAAAAAAAAY5HFKQ BadAddress\n\
GET /v1/accounts/1AAAAAAAAAAAAAAAAAAAAAAAAAAAAAAAAAAAAAAAAAAAAAAAAAAAY5HFKQ BadAddress\n\
GET /v1/accounts/1AAAAAAAAAAAAAAAAAAAAAAAAAAAAAAAAAAAAAAAAAAAAAAAAAAAY5HFKQ/assets/7 BadAddress\n\
GET /v1/accounts/1AAAAAAAAAAAAAAAAAAAAAAAAAAAAAAAAAAAAAAAAAAAAAAAAAAAY5HFKQ/apps/7 BadAddress\n\
GET /v1/online/1AAAAAAAAAAAAAAAAAAAAAAAAAAAAAAAAAAAAAAAAAAAAAAAAAAAY5HFKQ BadAddress\n\
GET /v1/accounts/x?x BadAddress\n\
GET /v1/accounts/x/assets/x?x BadAddress\n\
GET /v1/accounts/x/apps/x?x BadAddress\n\
GET /v1/online/x?x BadAddress\n\
GET /v1/accounts/AAAAAAAAAAAAAAAAAAAAAAAAAAAAAAAAAAAAAAAAAAAAAAAAAAAAY5HFKQ/assets/x BadId\n\
GET /v1/accounts/AAAAAAAAAAAAAAAAAAAAAAAAAAAAAAAAAAAAAAAAAAAAAAAAAAAAY5HFKQ/apps/x BadId\n\
GET /v1/apps/x/boxes/ff BadId\n\
GET /v1/creators/x BadId\n\
GET /v1/accounts/AAAAAAAAAAAAAAAAAAAAAAAAAAAAAAAAAAAAAAAAAAAAAAAAAAAAY5HFKQ/assets/01 BadId\n\
GET /v1/accounts/AAAAAAAAAAAAAAAAAAAAAAAAAAAAAAAAAAAAAAAAAAAAAAAAAAAAY5HFKQ/apps/01 BadId\n\
GET /v1/apps/01/boxes/ff BadId\n\
GET /v1/creators/01 BadId\n\
GET /v1/accounts/AAAAAAAAAAAAAAAAAAAAAAAAAAAAAAAAAAAAAAAAAAAAAAAAAAAAY5HFKQ/assets/00 BadId\n\
GET /v1/accounts/AAAAAAAAAAAAAAAAAAAAAAAAAAAAAAAAAAAAAAAAAAAAAAAAAAAAY5HFKQ/apps/00 BadId\n\
GET /v1/apps/00/boxes/ff BadId\n\
GET /v1/creators/00 BadId\n\
GET /v1/accounts/AAAAAAAAAAAAAAAAAAAAAAAAAAAAAAAAAAAAAAAAAAAAAAAAAAAAY5HFKQ/assets/+1 BadId\n\
GET /v1/accounts/AAAAAAAAAAAAAAAAAAAAAAAAAAAAAAAAAAAAAAAAAAAAAAAAAAAAY5HFKQ/apps/+1 BadId\n\
GET /v1/apps/+1/boxes/ff BadId\n\
GET /v1/creators/+1 BadId\n\
GET /v1/accounts/AAAAAAAAAAAAAAAAAAAAAAAAAAAAAAAAAAAAAAAAAAAAAAAAAAAAY5HFKQ/assets/-1 BadId\n\
GET /v1/accounts/AAAAAAAAAAAAAAAAAAAAAAAAAAAAAAAAAAAAAAAAAAAAAAAAAAAAY5HFKQ/apps/-1 BadId\n\
GET /v1/apps/-1/boxes/ff BadId\n\
GET /v1/creators/-1 BadId\n\
GET /v1/accounts/AAAAAAAAAAAAAAAAAAAAAAAAAAAAAAAAAAAAAAAAAAAAAAAAAAAAY5HFKQ/assets/1.0 BadId\n\
GET /v1/accounts/AAAAAAAAAAAAAAAAAAAAAAAAAAAAAAAAAAAAAAAAAAAAAAAAAAAAY5HFKQ/apps/1.0 BadId\n\
GET /v1/apps/1.0/boxes/ff BadId\n\
GET /v1/creators/1.0 BadId\n\
GET /v1/accounts/AAAAAAAAAAAAAAAAAAAAAAAAAAAAAAAAAAAAAAAAAAAAAAAAAAAAY5HFKQ/assets/4611686018427387905 BadId\n\
GET /v1/accounts/AAAAAAAAAAAAAAAAAAAAAAAAAAAAAAAAAAAAAAAAAAAAAAAAAAAAY5HFKQ/apps/4611686018427387905 BadId\n\
GET /v1/apps/4611686018427387905/boxes/ff BadId\n\
GET /v1/creators/4611686018427387905 BadId\n\
GET /v1/accounts/AAAAAAAAAAAAAAAAAAAAAAAAAAAAAAAAAAAAAAAAAAAAAAAAAAAAY5HFKQ/assets/18446744073709551616 BadId\n\
GET /v1/accounts/AAAAAAAAAAAAAAAAAAAAAAAAAAAAAAAAAAAAAAAAAAAAAAAAAAAAY5HFKQ/apps/18446744073709551616 BadId\n\
GET /v1/apps/18446744073709551616/boxes/ff BadId\n\
GET /v1/creators/18446744073709551616 BadId\n\
GET /v1/accounts/AAAAAAAAAAAAAAAAAAAAAAAAAAAAAAAAAAAAAAAAAAAAAAAAAAAAY5HFKQ/assets/%31 BadId\n\
GET /v1/accounts/AAAAAAAAAAAAAAAAAAAAAAAAAAAAAAAAAAAAAAAAAAAAAAAAAAAAY5HFKQ/apps/%31 BadId\n\
GET /v1/apps/%31/boxes/ff BadId\n\
GET /v1/creators/%31 BadId\n\
GET /v1/accounts/AAAAAAAAAAAAAAAAAAAAAAAAAAAAAAAAAAAAAAAAAAAAAAAAAAAAY5HFKQ/assets/x?x BadId\n\
GET /v1/accounts/AAAAAAAAAAAAAAAAAAAAAAAAAAAAAAAAAAAAAAAAAAAAAAAAAAAAY5HFKQ/apps/x?x BadId\n\
GET /v1/apps/x/boxes/f?x BadId\n\
GET /v1/creators/x?x BadId\n\
GET /v1/apps/7/boxes/f BadBox\n\
GET /v1/apps/7/boxes/fff BadBox\n\
GET /v1/apps/7/boxes/fg BadBox\n\
GET /v1/apps/7/boxes/gf BadBox\n\
GET /v1/apps/7/boxes/0x01 BadBox\n\
GET /v1/apps/7/boxes/ff00f BadBox\n\
GET /v1/apps/7/boxes/ababababababababababababababababababababababababababababababababababababababababababababababababababababababababababababababababab BadBox\n\
GET /v1/apps/7/boxes/ababababababababababababababababababababababababababababababababababababababababababababababababababababababababababababababababa BadBox\n\
GET /v1/apps/7/boxes/%66f BadBox\n\
GET /v1/apps/7/boxes/aBaBaBaBaBaBaBaBaBaBaBaBaBaBaBaBaBaBaBaBaBaBaBaBaBaBaBaBaBaBaBaBaBaBaBaBaBaBaBaBaBaBaBaBaBaBaBaBaBaBaBaBaBaBaBaBaBaBaBaBaBaBaBaB BoxOf\n\
GET /v1/apps/7/boxes/f?x BadBox\n\
GET  NoRoute\n\
GET ? NoRoute\n\
GET / NoRoute\n\
GET /v1 NoRoute\n\
GET /v1/ NoRoute\n\
GET /v1/nothing NoRoute\n\
GET /v1/status/ NoRoute\n\
GET /v1//status NoRoute\n\
GET //v1/status NoRoute\n\
GET v1/status NoRoute\n\
GET /v1/accounts NoRoute\n\
GET /v1/accounts/ NoRoute\n\
GET /v1/accounts//assets/7 NoRoute\n\
GET /v1/accounts/AAAAAAAAAAAAAAAAAAAAAAAAAAAAAAAAAAAAAAAAAAAAAAAAAAAAY5HFKQ/ NoRoute\n\
GET /v1/accounts/AAAAAAAAAAAAAAAAAAAAAAAAAAAAAAAAAAAAAAAAAAAAAAAAAAAAY5HFKQ/assets NoRoute\n\
GET /v1/accounts/AAAAAAAAAAAAAAAAAAAAAAAAAAAAAAAAAAAAAAAAAAAAAAAAAAAAY5HFKQ/assets/ NoRoute\n\
GET /v1/accounts/AAAAAAAAAAAAAAAAAAAAAAAAAAAAAAAAAAAAAAAAAAAAAAAAAAAAY5HFKQ/assets/7/ NoRoute\n\
GET /v1/accounts/AAAAAAAAAAAAAAAAAAAAAAAAAAAAAAAAAAAAAAAAAAAAAAAAAAAAY5HFKQ/boxes/7 NoRoute\n\
GET /v1/apps/7 NoRoute\n\
GET /v1/apps/7/boxes NoRoute\n\
GET /v1/apps/7/boxes/ NoRoute\n\
GET /v1/apps//boxes/ff NoRoute\n\
GET /v1/creators/ NoRoute\n\
GET /v1/online NoRoute\n\
GET /v1/Status NoRoute\n\
GET /V1/status NoRoute\n\
GET /v1/statu%73 NoRoute\n\
GET /v1/status%3f NoRoute\n\
GET /v2/status NoRoute\n\
GET * NoRoute\n\
GET /v1/{a} NoRoute\n\
GET http://a/v1/status NoRoute\n\
GET /v1/nothing?round=5 NoRoute\n\
DELETE /v1/nothing NoRoute\n\
POST /v1/block NoRoute\n\
POST /v1/blocks/ NoRoute\n\
POST /v1/blocks/1 NoRoute\n\
";

// What a request is called.
fn request_name(request: &Request) -> &'static str {
    match request {
        Request::Post => "Post",
        Request::Account { .. } => "Account",
        Request::Asset { .. } => "Asset",
        Request::App { .. } => "App",
        Request::BoxOf { .. } => "BoxOf",
        Request::Creator { .. } => "Creator",
        Request::Online { .. } => "Online",
        Request::Circulation { .. } => "Circulation",
        Request::Supply { .. } => "Supply",
        Request::Standing => "Standing",
    }
}

// What a fault is called.
fn fault_name(fault: FormFault) -> &'static str {
    match fault {
        FormFault::BadAddress => "BadAddress",
        FormFault::BadId => "BadId",
        FormFault::BadBox => "BadBox",
        FormFault::BadQuery => "BadQuery",
        FormFault::NoRoute => "NoRoute",
        FormFault::Method => "Method",
        FormFault::Memory => "Memory",
    }
}

fn answer(routes: &Routes, alloc: Global, method: &str, target: &str) -> &'static str {
    match routes.request(alloc, method, target) {
        Ok(request) => request_name(&request),
        Err(fault) => fault_name(fault),
    }
}

/// A line of the table.
#[derive(Clone, Copy)]
struct Row<'a> {
    method: &'a str,
    target: &'a str,
    answer: &'a str,
}

fn row_of(line: &str) -> Option<Row<'_>> {
    let (method, rest) = line.split_once(' ')?;
    let (target, answer) = rest.split_once(' ')?;
    Some(Row {
        method,
        target,
        answer,
    })
}

#[test]
fn each_target_has_its_answer(rt: HostRuntime) -> Result<(), Fail> {
    let alloc = rt.alloc();
    let routes = Routes::new(alloc)?;
    for line in ROWS.lines() {
        let row = row_of(line).ok_or("a line of the table")?;
        assert_eq!(rt; answer(&routes, alloc, row.method, row.target), row.answer);
    }
    Ok(())
}
