//! The style of the page.

/// It stands in the page, so that nothing has to come from elsewhere.
pub(crate) const STYLE: &str = "<style>
:root { color-scheme: light dark; --text: #1c2024; --quiet: #5b6069; --line: #dcdfe4; --card: #fff;
--page: #f4f5f7; --link: #0b5cad; --up: #176b45; --soft: #8a4500; --soft-page: #fff3e0;
--hard: #b01e26; --hard-page: #fdecec }
@media (prefers-color-scheme: dark) {
:root { --text: #e8eaed; --quiet: #a9afb8; --line: #363b42; --card: #1b1e22; --page: #111316;
--link: #7db7f5; --up: #5fd0a0; --soft: #ffb95e; --soft-page: #2f2411; --hard: #ff9a97;
--hard-page: #381b1d } }
body { margin: 0 auto; max-width: 84rem; padding: 1.5rem 1rem; background: var(--page);
color: var(--text); font: 15px/1.45 system-ui, sans-serif; font-variant-numeric: tabular-nums }
h1 { margin: 0; font-size: 1.35rem }
header p { margin: .2rem 0 0; color: var(--quiet) }
a { color: var(--link) }
dl { display: flex; flex-wrap: wrap; gap: .75rem; margin: 1.25rem 0 }
dl div { flex: 1 1 8rem; padding: .6rem .9rem; background: var(--card);
border: 1px solid var(--line); border-radius: .5rem }
dt { color: var(--quiet); font-size: .85rem }
dd { margin: 0; font-size: 1.3rem; font-weight: 600 }
table { width: 100%; margin: 0 0 1.5rem; border-collapse: collapse; background: var(--card);
border: 1px solid var(--line) }
caption { padding: .5rem 0; text-align: left; color: var(--quiet) }
caption b { color: var(--text) }
th, td { padding: .4rem .7rem; border-top: 1px solid var(--line); text-align: right;
white-space: nowrap }
thead th { border-top: 0; color: var(--quiet); font-size: .85rem; font-weight: 500 }
tbody th { font-weight: 500 }
th:first-child, .pool th:nth-child(-n+4), .pool td:nth-child(-n+4) { text-align: left }
.pool td:nth-child(4) { white-space: normal }
.up td:nth-child(2) { color: var(--up) }
.soft { background: var(--soft-page) }
.soft td:nth-child(2) { color: var(--soft); font-weight: 600 }
.hard { background: var(--hard-page) }
.hard td:nth-child(2) { color: var(--hard); font-weight: 600 }
@media (max-width: 72rem) {
.pool, .pool tbody { display: block; border: 0; background: none }
.pool caption { display: block }
.pool thead { position: absolute; width: 1px; height: 1px; overflow: hidden; clip-path: inset(50%) }
.pool tr { display: grid; grid-template-columns: repeat(auto-fill, minmax(9.5rem, 1fr));
gap: .3rem 1rem; margin: 0 0 .75rem; padding: .7rem .9rem; border: 1px solid var(--line);
border-radius: .5rem }
.pool tr.up { background: var(--card) }
.pool th, .pool td { padding: 0; border: 0; text-align: left; white-space: normal }
.pool tbody th { grid-column: 1 / -1; font-weight: 600 }
.pool td:empty { display: none }
.pool td::before { display: block; color: var(--quiet); font-size: .8rem; font-weight: 400 }
.pool td:nth-child(2)::before { content: 'State' }
.pool td:nth-child(3)::before { content: 'Since' }
.pool td:nth-child(4)::before { content: 'Probed by' }
.pool td:nth-child(5)::before { content: 'In flight' }
.pool td:nth-child(6)::before { content: 'Sent' }
.pool td:nth-child(7)::before { content: 'Replies' }
.pool td:nth-child(8)::before { content: 'Timeouts' }
.pool td:nth-child(9)::before { content: 'Refused' }
.pool td:nth-child(10)::before { content: 'Broken' }
.pool td:nth-child(11)::before { content: 'Aborted' }
.pool td:nth-child(12)::before { content: 'Half took' }
.pool td:nth-child(13)::before { content: '99 % took' } }
</style>
";
